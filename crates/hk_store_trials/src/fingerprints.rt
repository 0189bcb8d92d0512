// The fingerprints of items of small sites, and the digests of their traits.
use hk_base::Text;
use hk_chain::ItemNo;
use hk_rules::{Plan, make_plan, read_rules};
use hk_store::{fingerprint, fingerprint_digests, traits_digest};
use std::alloc::Global;
use std::test::Fail;

/// A file that is taken as it is.
const PLAIN: &str = r#"
[[rule]]
match = "a.txt"
compile = ["string"]
"#;

/// Each kind of field, contexts that name one another, and one that nothing names.
const RICH: &str = r#"
[context.a]
fields = ["body", { const = ["k", "v"] }, { list = "posts", of = { and = ["p/*", { not = "p/x" }] }, context = "z", order = "recent", limit = 2 }]
[context.z]
fields = ["url", { bool = ["b", true] }, { date = ["d", "%Y"] }, { teaser = ["t", "early"] }, { list = "more", of = { ids = ["x", ["y", "v"]] }, context = "a" }]
[context.unused]
fields = ["path"]
[[rule]]
match = "a.txt"
route = { extension = "html" }
compile = ["string", { apply = "t", context = "a" }, { self = "default" }, { concat = { has_version = "w" } }, { load = ["p", "q"], snapshot = "s" }, { make = "m" }, { save = "early" }, "relativize"]
"#;

const RICH_TEXT: &str = concat!(
    "5\nchain\n8\n6\nstring\n5\napply\n1\nt\n-\n1\na\n4\nself\n7\ndefault\n6\nconcat\n7\nversion\n1\nw\n",
    "4\nload\n1\np\n+\n1\nq\n1\ns\n4\nmake\n1\nm\n4\nsave\n5\nearly\n10\nrelativize\n",
    "3\n1\na\n3\n4\nbody\n5\nconst\n1\nk\n1\nv\n4\nlist\n5\nposts\n3\nand\n2\n4\nglob\n3\np/*\n3\nnot\n4\nglob\n3\np/x\n",
    "6\n_final\n6\nrecent\n2\n1\nz\n7\ndefault\n5\n4\nbody\n8\nmetadata\n3\nurl\n4\npath\n5\ntitle\n",
    "1\nz\n5\n3\nurl\n4\nbool\n1\nb\n4\ntrue\n4\ndate\n1\nd\n2\n%Y\n6\nteaser\n1\nt\n5\nearly\n",
    "4\nlist\n4\nmore\n3\nids\n2\n1\nx\n-\n1\ny\n+\n1\nv\n6\n_final\n2\nid\n0\n1\na\n",
    "+\n6\na.html\n+\n3\nhi\n\n+\n5\nk: v\n\n"
);

fn text(alloc: Global, bytes: &str) -> Result<Text, Fail> {
    Ok(Text::from_slice(alloc, bytes.as_bytes())?)
}

fn planned(alloc: Global, rules: &str, files: &[(&str, &str)]) -> Result<Plan, Fail> {
    let mut listed = Vec::new(alloc);
    for (path, body) in files {
        listed.push((text(alloc, path)?, text(alloc, body)?))?;
    }
    let rules = read_rules(alloc, rules.as_bytes()).ok().ok_or("refused")?;
    Ok(make_plan(alloc, rules, listed).ok().ok_or("no plan")?)
}

/// The fingerprint of the first item.
fn first_print(alloc: Global, plan: &Plan) -> Result<Text, Fail> {
    if plan.count() > 0 {
        Ok(fingerprint(alloc, plan, ItemNo(0))?)
    } else {
        Err(Fail::from("no item"))
    }
}

/// The digests of the first item's fingerprint and of its traits.
fn first_digests(alloc: Global, plan: &Plan) -> Result<([u8; 32], [u8; 32]), Fail> {
    if plan.count() > 0 {
        let prints = fingerprint_digests(alloc, plan)?;
        let traits = traits_digest(alloc, plan.target_of(ItemNo(0)), plan.meta(ItemNo(0)))?;
        Ok((prints[0], traits))
    } else {
        Err(Fail::from("no item"))
    }
}

#[test]
fn a_plain_file(rt: HostRuntime) -> Result<(), Fail> {
    let alloc = rt.alloc();
    let plan = planned(alloc, PLAIN, &[("a.txt", "hi\n")])?;
    let print = first_print(alloc, &plan)?;
    assert!(rt; print.as_slice() == b"5\nchain\n1\n6\nstring\n0\n-\n+\n3\nhi\n\n-\n".as_slice());
    Ok(())
}

#[test]
fn contexts_stand_by_name(rt: HostRuntime) -> Result<(), Fail> {
    let alloc = rt.alloc();
    let files = [("a.txt", "hi\n"), ("a.txt.metadata", "k: v\n")];
    let plan = planned(alloc, RICH, &files)?;
    let print = first_print(alloc, &plan)?;
    assert!(rt; print.as_slice() == RICH_TEXT.as_bytes());
    Ok(())
}

/// The digits of a digest.
fn digits(alloc: Global, digest: &[u8; 32]) -> Result<Text, Fail> {
    let mut written = Vec::new(alloc);
    for byte in digest {
        written.extend_from_slice(format!(in alloc; "{byte:02x}")?.as_bytes())?;
    }
    Ok(Text::from_vec(written))
}

#[test]
fn digests_are_of_these_texts(rt: HostRuntime) -> Result<(), Fail> {
    let alloc = rt.alloc();
    let files = [("a.txt", "hi\n"), ("a.txt.metadata", "k: v\n")];
    let plan = planned(alloc, RICH, &files)?;
    let (print, traits) = first_digests(alloc, &plan)?;
    let print = digits(alloc, &print)?;
    let traits = digits(alloc, &traits)?;
    assert!(rt;
        print.as_slice()
            == b"63e6e8bf92215443953ff66b22b0cae1bc6057d43f7e9a77bb2c462b3442ba1d".as_slice()
    );
    assert!(rt;
        traits.as_slice()
            == b"624aa5fe6286b7f91c24be4815a4dc5c442022f0661d9dadc28842104b9b8e0c".as_slice()
    );
    Ok(())
}
