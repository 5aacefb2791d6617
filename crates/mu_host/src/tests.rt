use crate::Host;
use mu_outside::{Failed, Outside};
use std::fs;
use std::test::Fail;

const PATH: &str = "mu_host_test_journal";

#[test]
fn keeps_a_journal_in_a_file(rt: HostRuntime) -> Result<(), Fail> {
    let _ = fs::remove_file(&rt, PATH);
    for path in ["", ".", "mu_host_test_folder/journal"] {
        assert_eq!(rt; Host::new(&rt).attach(path), Err(Failed), "{path}");
    }

    let mut host = Host::new(&rt);
    host.attach(PATH)?;
    assert_eq!(rt; host.length()?, 0);
    host.write_at(0, b"one two")?;
    host.write_at(4, b"three")?;
    host.sync()?;
    let mut bytes = [0; 16];
    assert_eq!(rt; host.read_at(0, &mut bytes)?, 9);
    assert!(rt; bytes == *b"one three\0\0\0\0\0\0\0");
    assert_eq!(rt; host.read_at(9, &mut bytes)?, 0);
    host.cut(5)?;
    assert_eq!(rt; host.length()?, 5);
    host.sync()?;

    let mut next = Host::new(&rt);
    next.attach(PATH)?;
    assert_eq!(rt; next.length()?, 5);
    assert_eq!(rt; next.read_at(1, &mut bytes)?, 4);
    assert!(rt; bytes.starts_with(b"ne tthree"));
    fs::remove_file(&rt, PATH)?;
    Ok(())
}
