// The texts of a plan's patterns, found by text.
ghost use Rattle.std.specs.Prelude.{◌≡◌, ◌<◌, [], length, get_or, bytes_eq, IfOk};
ghost use Rattle.std.specs.List.{position_from};
ghost use Rattle.hk_replay.specs.Places.{AreFirst};

use hk_base::{NoMemory, Text};
use hk_chain::PatternNo;
use std::alloc::Global;
use std::collections::BTreeMap;
use std::marker::Model;

/// The texts of patterns, with the first pattern of each text.
#[derive(Drop)]
pub(crate) struct PatternTexts {
    texts: Vec<Text>,
    places: BTreeMap<Vec<u8>, PatternNo>,
}

impl Model for PatternTexts {
    ghost use Rattle.std.specs.Prelude.{List};
    ghost use Rattle.hk_base.specs.Bytes.{Bytes};
    ghost use Rattle.hk_replay.specs.Places.{AreFirst};

    ghost Value = { List Bytes };

    ghost view = { λ t. t.texts.items };

    ghost invariant = { λ t. AreFirst t.texts.items t.places.entries };
}

impl PatternTexts {
    /// These texts. `NoMemory` only for want of memory. Linear in the texts, with a logarithmic look-up for each.
    pub(crate) fn of(alloc: Global, texts: Vec<Text>) -> Result<PatternTexts, NoMemory>
        ensures { IfOk result (λ t. t ≡ texts.items) }
    {
        let places = places_of(alloc, &texts)?;
        Ok(PatternTexts { texts, places })
    }

    /// The first pattern with this text. Logarithmic in the number of texts.
    pub(crate) fn place(&self, text: &[u8]) -> Option<PatternNo>
        ensures { result ≡ position_from (λ own. bytes_eq own text.now) 0 self.now }
    {
        self.places.get(text).copied()
    }

    /// The text at a place. Constant.
    pub(crate) fn text(&self, place: usize) -> &[u8]
        requires { place < length self.now }
        ensures { result.now ≡ get_or self.now place [] }
    {
        self.texts[place].as_slice()
    }
}

/// The first pattern of each text.
fn places_of(alloc: Global, texts: &[Text]) -> Result<BTreeMap<Vec<u8>, PatternNo>, NoMemory>
    ensures { IfOk result (λ m. AreFirst texts.now m.entries) }
{
    let mut places = BTreeMap::new(alloc);
    let mut at = texts.len();
    while at > 0 {
        at -= 1;
        let number = pattern_no(at)?;
        let text = Vec::from_slice(alloc, texts[at].as_slice())?;
        places.insert(text, number)?;
    }
    Ok(places)
}

/// The number of a pattern. More patterns than there are numbers count as want of memory.
pub(crate) fn pattern_no(number: usize) -> Result<PatternNo, NoMemory>
    ensures { IfOk result (λ p. p ≡ number) }
{
    match u32::try_from(number) {
        Ok(number) => Ok(PatternNo(number)),
        Err(_) => Err(NoMemory),
    }
}
