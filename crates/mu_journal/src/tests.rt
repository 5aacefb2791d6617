ghost use Rattle.std.specs.Prelude.{◌≡◌, true, IfOk};
ghost use Rattle.mu_outside.specs.Desks.{known_by};
ghost use Rattle.mu_journal.specs.Formats.{IsRecord};
ghost use Rattle.mu_journal.specs.Opening.{IsAtRest};

mod contents;

use crate::{Frame, Journal, Records, StartFault};
use contents::{NEW, ONE, THEORY, TWO, VARIABLE, opened, refused, short};
use mu_outside::{Desk, Faults, Outside};
use mu_tree::{Bytes, Numbers};
use std::alloc::Global;
use std::test::Fail;

/// A desk with these bytes on its disk, and the journal named. The call of the disk with this number fails.
fn desk(alloc: Global, bytes: &[u8], failing: u64) -> Result<Desk, Fail>
    ensures rests { IfOk result (λ desk. IsAtRest (known_by desk).disk) }
    ensures attached { IfOk result (λ desk. (known_by desk).attached ≡ true) }
{
    let mut disks = Numbers::new(alloc);
    disks.push(failing)?;
    let faults = Faults {
        takes: Numbers::new(alloc),
        tells: Numbers::new(alloc),
        disks,
    };
    let disk = Bytes::from_vec(bytes.to_vec(alloc)?);
    let mut desk = Desk::new(alloc, Bytes::new(alloc), disk, faults)?;
    desk.attach("journal")?;
    Ok(desk)
}

/// What an opening answered, and the desk after it.
#[derive(Drop)]
struct Tried {
    records: Option<Records>,
    fault: Option<StartFault>,
    desk: Desk,
}

impl Tried {
    /// Whether it answered these records and left this disk.
    fn has(&self, texts: &[&[u8]], disk: &[u8]) -> bool {
        self.opens(texts) && self.desk.disk() == disk
    }

    /// Whether it answered these records.
    fn opens(&self, texts: &[&[u8]]) -> bool {
        match &self.records {
            Some(records) => are(records, texts),
            None => false,
        }
    }

    /// Whether it answered this fault and left this disk.
    fn failed(&self, fault: StartFault, disk: &[u8]) -> bool {
        self.fault == Some(fault) && self.desk.disk() == disk
    }
}

/// Whether records are these and no more.
fn are(records: &Records, texts: &[&[u8]]) -> bool {
    for (number, text) in texts.iter().enumerate() {
        if records.nth(number) != Some(*text) {
            return false;
        }
    }
    records.nth(texts.len()).is_none()
}

/// Opens these bytes. The call of the disk with this number fails.
fn opening(alloc: Global, bytes: &[u8], failing: u64) -> Result<Tried, Fail> {
    let mut desk = desk(alloc, bytes, failing)?;
    match Journal::start(alloc, &mut desk) {
        Ok((_, records)) => Ok(Tried {
            records: Some(records),
            fault: None,
            desk,
        }),
        Err(fault) => Ok(Tried {
            records: None,
            fault: Some(fault),
            desk,
        }),
    }
}

/// Opens the journal and adds a record. None where the call failed.
fn add<O: Outside>(alloc: Global, out: &mut O, text: &[u8]) -> Result<Option<Journal>, Fail>
    requires rests { IsAtRest (O.observed out.old).disk }
    requires attached { (O.observed out.old).attached ≡ true }
    requires text { IsRecord text.now }
{
    let (journal, _) = Journal::start(alloc, out)?;
    if !journal.fits(text.len() as u64) {
        return Ok(None);
    }
    let frame = Frame::make(alloc, text)?;
    Ok(journal.append(out, &frame).ok())
}

/// Adds a record to these bytes: whether that succeeded, and the desk after it.
fn adding(alloc: Global, bytes: &[u8], text: &[u8], failing: u64) -> Result<(bool, Desk), Fail>
    requires { IsRecord text.now }
{
    let mut desk = desk(alloc, bytes, failing)?;
    let added = add(alloc, &mut desk, text)?.is_some();
    Ok((added, desk))
}

#[test]
fn opens_contents(rt: HostRuntime) -> Result<(), Fail> {
    for (number, (bytes, texts, disk)) in opened().iter().enumerate() {
        assert!(rt;
            opening(rt.alloc(), bytes, 0)?.has(texts, disk),
            "content {number}"
        );
    }
    Ok(())
}

#[test]
fn refuses_contents(rt: HostRuntime) -> Result<(), Fail> {
    for (number, (bytes, fault)) in refused().iter().enumerate() {
        assert!(rt;
            opening(rt.alloc(), bytes, 0)?.failed(*fault, bytes),
            "content {number}"
        );
    }
    Ok(())
}

/// Whether the head with these bytes behind it opens as it has to: an open gate with bytes behind it is torn, and all else
/// is a journal without records.
fn opens_rightly(alloc: Global, bytes: &[u8]) -> Result<bool, Fail> {
    let tried = opening(alloc, bytes, 0)?;
    if bytes.len() > 9 && bytes[8] == 0xA5 {
        return Ok(tried.failed(StartFault::Torn { number: 1 }, bytes));
    }
    Ok(tried.has(&[], NEW))
}

/// The head, a gate and some bytes behind it.
fn headed(alloc: Global, gate: u8, rest: &[u8]) -> Result<Vec<u8>, Fail> {
    let mut bytes = b"MURALJ1\n".to_vec(alloc)?;
    bytes.push(gate)?;
    bytes.extend_from_slice(rest)?;
    Ok(bytes)
}

#[test]
fn opens_few_bytes(rt: HostRuntime) -> Result<(), Fail> {
    for gate in 0..=255u8 {
        for rest in short() {
            let bytes = headed(rt.alloc(), gate, rest)?;
            assert!(rt; opens_rightly(rt.alloc(), &bytes)?, "gate {gate}");
        }
    }
    Ok(())
}

#[test]
fn adds_records(rt: HostRuntime) -> Result<(), Fail> {
    let (_, desk) = adding(rt.alloc(), b"", THEORY, 0)?;
    assert!(rt; desk.disk() == ONE);
    let (_, desk) = adding(rt.alloc(), ONE, VARIABLE, 0)?;
    assert!(rt; desk.disk() == TWO);
    Ok(())
}

/// A journal to which a record of so many bytes was added.
fn with_long(alloc: Global, bytes: &[u8], byte: u8, count: usize) -> Result<Vec<u8>, Fail> {
    let text = vec![in alloc; byte; count.clamp(1, 1 << 24)]?;
    let (_, desk) = adding(alloc, bytes, &text, 0)?;
    Ok(desk.disk().to_vec(alloc)?)
}

#[test]
fn opens_long_records(rt: HostRuntime) -> Result<(), Fail> {
    let alloc = rt.alloc();
    let bytes = with_long(alloc, ONE, b'a', 65_490)?;
    let bytes = with_long(alloc, &bytes, b'b', 70_000)?;
    let (most, more) = (vec![in alloc; b'a'; 65_490]?, vec![in alloc; b'b'; 70_000]?);
    assert!(rt; opening(alloc, &bytes, 0)?.has(&[THEORY, &most, &more], &bytes));
    Ok(())
}

/// Whether an opening fails where the call of the disk with this number does.
fn opening_fails(alloc: Global, number: u64) -> Result<bool, Fail> {
    let tried = opening(alloc, b"MURALJ1\n\x17\xA5\xA5", number)?;
    Ok(tried.fault == Some(StartFault::Disk))
}

/// Whether a record stands after it was added, where the call of the disk with this number fails.
fn stands_after(alloc: Global, number: u64) -> Result<bool, Fail> {
    let (_, desk) = adding(alloc, NEW, THEORY, number)?;
    let tried = opening(alloc, desk.disk(), 0)?;
    Ok(tried.opens(&[THEORY]))
}

#[test]
fn tells_failed_calls(rt: HostRuntime) -> Result<(), Fail> {
    for number in 2..10 {
        assert!(rt; opening_fails(rt.alloc(), number)?);
    }
    assert!(rt; !opening_fails(rt.alloc(), 10)?);
    for number in 4..7 {
        assert!(rt; !stands_after(rt.alloc(), number)?);
    }
    for number in 7..9 {
        assert!(rt; stands_after(rt.alloc(), number)?);
    }
    Ok(())
}

/// Whether an image that a crash inside a call leaves opens to the first or to all of these records. None where there were
/// fewer calls.
fn image_opens(
    alloc: Global,
    desk: &Desk,
    number: u64,
    fill: u8,
    long: bool,
    few: &[&[u8]],
    all: &[&[u8]],
) -> Result<Option<bool>, Fail> {
    let Some((image, _)) = desk.image(alloc, number, fill, long)? else {
        return Ok(None);
    };
    let tried = opening(alloc, image.items(), 0)?;
    Ok(Some(tried.opens(few) || tried.opens(all)))
}

/// The number of calls, where each image that a crash inside one of them leaves, with three fills and both ends, opens to the
/// first or to all of these records. Zero where one doesn't.
fn count_images(alloc: Global, desk: &Desk, few: &[&[u8]], all: &[&[u8]]) -> Result<u64, Fail> {
    for number in 1..20u64 {
        for (fill, long) in contents::ends() {
            match image_opens(alloc, desk, number, fill, long, few, all)? {
                Some(true) => {}
                Some(false) => return Ok(0),
                None => return Ok(number - 1),
            }
        }
    }
    Ok(0)
}

/// Whether each image that a crash inside the opening of these bytes leaves opens to these records, over so many calls.
fn opening_keeps(alloc: Global, bytes: &[u8], texts: &[&[u8]], calls: u64) -> Result<bool, Fail> {
    let tried = opening(alloc, bytes, 0)?;
    Ok(count_images(alloc, &tried.desk, texts, texts)? == calls)
}

/// Whether each image that a crash inside an append leaves opens to the record before, or to that and the new one.
fn append_keeps(alloc: Global) -> Result<bool, Fail> {
    let (_, desk) = adding(alloc, ONE, VARIABLE, 0)?;
    Ok(count_images(alloc, &desk, &[THEORY], &[THEORY, VARIABLE])? == 9)
}

#[test]
fn leaves_the_records(rt: HostRuntime) -> Result<(), Fail> {
    for (bytes, texts, calls) in contents::repaired() {
        assert!(rt; opening_keeps(rt.alloc(), bytes, texts, calls)?);
    }
    assert!(rt; append_keeps(rt.alloc())?);
    Ok(())
}
