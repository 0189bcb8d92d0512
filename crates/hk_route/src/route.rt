// Routes: what gives an identifier its target.
ghost use Rattle.std.specs.Prelude.{◌≡◌, IfOk, map};
ghost use Rattle.std.specs.Option.{option_copied};
ghost use Rattle.hk_base.specs.Answers.{Answers};
ghost use Rattle.hk_route.specs.Route as spec;
ghost use Rattle.hk_route.specs.Route.{routed, composed, first_of};

use crate::rewriting::{replaced, with_extension};
use hk_base::{Identifier, NoMemory, Refusal, Text, is_path};
use hk_pattern::Pattern;
use sqlite_items::{Boxed, Items};
use std::alloc::Global;

/// What gives an identifier its target, or doesn't apply to it.
#[derive(Debug, Drop)]
pub enum Route {
    /// The path itself.
    Id,
    /// The path with this extension in place of the last component's, which begins at its last dot that isn't its first
    /// byte; without one it is appended.
    Extension(Text),
    /// This text, whatever the path.
    Constant(Text),
    /// The path with each occurrence of the first text replaced by the second, from left to right. An empty first text
    /// occurs nowhere, so the path stays.
    Gsub(Text, Text),
    /// The route, where the pattern matches.
    When(Pattern, Boxed<Route>),
    /// Each in turn on the path so far without a version, where all apply.
    Compose(Items<Route>),
    /// The first that applies.
    First(Items<Route>),
}

/// Why a route gives no target.
#[derive(Debug, PartialEq, Eq, Drop)]
pub enum RouteFault {
    /// What the whole route gives is no identifier's path.
    BadTarget { path: Text },
}

/// The target of the identifier, or None exactly where the route doesn't apply. `BadTarget` exactly where what the whole
/// route gives is no identifier's path, NoMemory where there is no room for a path. One pass over the path so far for each
/// route that is tried, beside what its patterns test; for `Gsub` at worst that path times the first text.
pub fn target(
    alloc: Global,
    route: &Route,
    id: &Identifier,
) -> Result<Option<Text>, Refusal<RouteFault>>
    ensures { Answers (spec.target route.now id.now) result }
{
    match run(alloc, route, id.path(), id.version())? {
        None => Ok(None),
        Some(path) => {
            if is_path(path.as_slice()) {
                Ok(Some(path))
            } else {
                Err(Refusal::Fault(RouteFault::BadTarget { path }))
            }
        }
    }
}

#[cycle(running)]
fn run(
    alloc: Global,
    route: &Route,
    path: &[u8],
    version: Option<&[u8]>,
) -> Result<Option<Text>, NoMemory>
    ensures { IfOk result (λ o. o ≡ routed route.now path.now (option_copied version.entry)) }
{
    match route {
        Route::Id => Ok(Some(Text::from_slice(alloc, path)?)),
        Route::Extension(extension) => Ok(Some(with_extension(alloc, extension.as_slice(), path)?)),
        Route::Constant(text) => Ok(Some(Text::from_slice(alloc, text.as_slice())?)),
        Route::Gsub(old, new) => Ok(Some(replaced(alloc, old.as_slice(), new.as_slice(), path)?)),
        Route::When(pattern, route) => {
            if pattern.matches_path(path, version) {
                run(alloc, route.get(), path, version)
            } else {
                Ok(None)
            }
        }
        Route::Compose(routes) => run_all(alloc, routes.as_slice(), path),
        Route::First(routes) => run_first(alloc, routes.as_slice(), path, version),
    }
}

#[cycle(running)]
fn run_all(alloc: Global, routes: &[Route], path: &[u8]) -> Result<Option<Text>, NoMemory>
    ensures { IfOk result (λ o. o ≡ composed (map routed routes.now) path.now) }
{
    let [first, later @ ..] = routes else {
        return Ok(Some(Text::from_slice(alloc, path)?));
    };
    let Some(mut so_far) = run(alloc, first, path, None)? else {
        return Ok(None);
    };
    for route in later {
        match run(alloc, route, so_far.as_slice(), None)? {
            Some(next) => so_far = next,
            None => return Ok(None),
        }
    }
    Ok(Some(so_far))
}

#[cycle(running)]
fn run_first(
    alloc: Global,
    routes: &[Route],
    path: &[u8],
    version: Option<&[u8]>,
) -> Result<Option<Text>, NoMemory>
    ensures { IfOk result (λ o. o ≡ first_of (map routed routes.now) path.now (option_copied version.entry)) }
{
    for route in routes {
        if let Some(path) = run(alloc, route, path, version)? {
            return Ok(Some(path));
        }
    }
    Ok(None)
}
