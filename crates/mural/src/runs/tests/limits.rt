// The most that a store may hold of each sort, and one more.

use super::is_told;
use mu_tree::NoMemory;
use std::alloc::Global;
use std::test::Fail;

/// Whether behind a theory so many commands of these words, a number and an end are carried out, and one more is refused
/// as too many of this word.
fn is_limit(
    alloc: Global,
    most: u32,
    words: &str,
    end: &str,
    count: &str,
) -> Result<bool, NoMemory> {
    let mut input = String::new(alloc);
    let mut replies = String::new(alloc);
    input.push_str("theory t\n")?;
    replies.push_str("ok\n")?;
    for number in 0..most {
        writeln!(input, "{words}{number}{end}")?;
        replies.push_str("ok\n")?;
    }
    writeln!(input, "{words}{most}{end}")?;
    writeln!(replies, "refused too-many {count}")?;
    is_told(alloc, input.as_bytes(), replies.as_bytes())
}

#[test]
fn holds_4096_theories(rt: HostRuntime) -> Result<(), Fail> {
    assert!(rt; is_limit(rt.alloc(), 4_095, "theory t", "", "theories")?);
    Ok(())
}

#[test]
fn holds_65536_constants(rt: HostRuntime) -> Result<(), Fail> {
    assert!(rt; is_limit(rt.alloc(), 65_536, "const t c", " -> e", "constants")?);
    Ok(())
}

#[test]
fn holds_65536_rules(rt: HostRuntime) -> Result<(), Fail> {
    assert!(rt; is_limit(rt.alloc(), 65_536, "rule t r", " : p", "rules")?);
    Ok(())
}

#[test]
fn holds_65536_proofs(rt: HostRuntime) -> Result<(), Fail> {
    assert!(rt; is_limit(rt.alloc(), 65_536, "proof r p", "", "proofs")?);
    Ok(())
}
