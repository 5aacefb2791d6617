ghost use Rattle.std.specs.Prelude.{◌≡◌, true};

use super::*;
use mu_tree::Numbers;
use std::test::Fail;

/// A desk whose journal is named.
#[derive(Drop)]
struct Named {
    desk: Desk,
    ghost named: { desk.attached ≡ true },
}

// A desk with these failing calls, whose journal is named.
fn start(alloc: Global, takes: &[u64], tells: &[u64], disks: &[u64]) -> Option<Named> {
    let faults = Faults {
        takes: Numbers::from_vec(Vec::from_slice(alloc, takes).ok()?),
        tells: Numbers::from_vec(Vec::from_slice(alloc, tells).ok()?),
        disks: Numbers::from_vec(Vec::from_slice(alloc, disks).ok()?),
    };
    let input = Bytes::from_vec(Vec::from_slice(alloc, b"input").ok()?);
    let disk = Bytes::from_vec(Vec::from_slice(alloc, b"abc").ok()?);
    let mut desk = Desk::new(alloc, input, disk, faults).ok()?;
    desk.attach("journal").ok()?;
    Some(Named { desk })
}

// Calls of little contract, so that a test of many calls is soon checked.
impl Named {
    fn take(&mut self, buf: &mut [u8]) -> Option<usize> {
        if buf.is_empty() {
            return None;
        }
        self.desk.take(buf).ok()
    }

    fn tell(&mut self, piece: &[u8]) -> Option<usize> {
        if piece.is_empty() {
            return None;
        }
        self.desk.tell(piece).ok()
    }

    fn length(&mut self) -> Option<u64> {
        self.desk.length().ok()
    }

    fn read(&mut self, at: u64, buf: &mut [u8]) -> Option<usize> {
        if buf.is_empty() {
            return None;
        }
        self.desk.read_at(at, buf).ok()
    }

    fn write(&mut self, at: u64, bytes: &[u8]) -> bool {
        at <= self.desk.disk().len() as u64 && self.desk.write_at(at, bytes).is_ok()
    }

    fn cut(&mut self, at: u64) -> bool {
        at <= self.desk.disk().len() as u64 && self.desk.cut(at).is_ok()
    }

    fn sync(&mut self) -> bool {
        self.desk.sync().is_ok()
    }

    fn has(&self, disk: &[u8], told: &[u8]) -> bool {
        self.desk.disk() == disk && self.desk.told() == told && self.desk.starved() == 0
    }

    fn shows(&self, alloc: Global, number: u64, fill: u8, long: bool, image: &[u8]) -> bool {
        match self.desk.image(alloc, number, fill, long) {
            Ok(Some((shown, told))) => {
                shown.items() == image && told.items() == b"hello".as_slice()
            }
            Ok(None) | Err(NoMemory) => false,
        }
    }

    fn shows_a_write(&self, alloc: Global, fill: u8) -> bool {
        self.shows(alloc, 3, fill, false, &[b'a', fill, fill])
            && self.shows(alloc, 3, fill, true, &[b'a', fill, fill, fill])
    }

    fn shows_a_cut(&self, alloc: Global, fill: u8) -> bool {
        self.shows(alloc, 5, fill, false, b"ax")
            && self.shows(alloc, 5, fill, true, &[b'a', b'x', fill, fill])
    }
}

#[test]
fn does_what_it_is_asked(rt: HostRuntime) -> Result<(), Fail> {
    let mut desk = start(rt.alloc(), &[], &[], &[]).ok_or(Failed)?;
    let mut buf = [0; 4];
    assert!(rt; desk.take(&mut buf) == Some(4));
    assert!(rt; buf == *b"inpu");
    assert!(rt; desk.tell(b"hello") == Some(5));
    assert!(rt; desk.length() == Some(3));
    assert!(rt; desk.write(1, b"xyz"));
    assert!(rt; desk.has(b"axyz", b"hello"));
    assert!(rt; desk.read(2, &mut buf) == Some(2));
    assert!(rt; buf == *b"yzpu");
    assert!(rt; desk.cut(1));
    assert!(rt; desk.sync());
    assert!(rt; desk.has(b"a", b"hello"));
    Ok(())
}

#[test]
fn fails_where_it_is_listed(rt: HostRuntime) -> Result<(), Fail> {
    assert!(rt; start(rt.alloc(), &[], &[], &[1]).is_none());
    let mut desk = start(rt.alloc(), &[1], &[1], &[2, 3, 4, 5, 6]).ok_or(Failed)?;
    let mut buf = [0; 4];
    assert!(rt; desk.take(&mut buf).is_none());
    assert!(rt; desk.take(&mut buf) == Some(4));
    assert!(rt; desk.tell(b"hello").is_none());
    assert!(rt; desk.tell(b"there") == Some(5));
    assert!(rt; desk.length().is_none());
    assert!(rt; desk.read(0, &mut buf).is_none());
    assert!(rt; !desk.write(0, b"x"));
    assert!(rt; !desk.cut(0));
    assert!(rt; !desk.sync());
    assert!(rt; desk.length() == Some(3));
    assert!(rt; desk.has(b"abc", b"there"));
    Ok(())
}

#[test]
fn shows_a_write_and_a_cut(rt: HostRuntime) -> Result<(), Fail> {
    let mut desk = start(rt.alloc(), &[], &[], &[]).ok_or(Failed)?;
    assert!(rt; desk.tell(b"hello") == Some(5));
    assert!(rt; desk.write(1, b"xyz") && desk.sync() && desk.cut(2));
    for fill in [0x00, 0xa5, 0xff] {
        assert!(rt; desk.shows_a_write(rt.alloc(), fill));
        assert!(rt; desk.shows_a_cut(rt.alloc(), fill));
    }
    assert!(rt; !desk.shows(rt.alloc(), 0, 0, true, b""));
    assert!(rt; !desk.shows(rt.alloc(), 6, 0, true, b""));
    Ok(())
}
