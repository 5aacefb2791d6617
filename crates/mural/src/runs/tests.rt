mod boxes;
mod calls;
mod devices;
mod edits;
mod examples;
mod forms;
mod limits;
mod machine;
mod pages;
mod reasons;
mod statuses;
mod transcripts;
mod trees;
mod units;
mod worked;

use super::*;
use boxes::boxes;
use devices::{Blanks, Drip};
use edits::edits;
use examples::{examples, first};
use mu_outside::{Desk, Faults};
use mu_tree::{Bytes, NoMemory, Numbers};
use pages::pages;
use reasons::reasons;
use statuses::statuses;
use std::test::Fail;
use transcripts::transcripts;
use trees::trees;
use units::units;
use worked::worked;

fn desk(alloc: Global, input: &[u8], takes: &[u64], tells: &[u64]) -> Result<Desk, NoMemory> {
    let input = Bytes::from_vec(Vec::from_slice(alloc, input)?);
    let faults = Faults {
        takes: Numbers::from_vec(Vec::from_slice(alloc, takes)?),
        tells: Numbers::from_vec(Vec::from_slice(alloc, tells)?),
        disks: Numbers::new(alloc),
    };
    Desk::new(alloc, input, Bytes::new(alloc), faults)
}

#[test]
fn takes_no_words(rt: HostRuntime) -> Result<(), Fail> {
    let mut desk = desk(rt.alloc(), first::COMMANDS, &[], &[])?;
    let words = vec![in rt.alloc(); String::from_str(rt.alloc(), "j")?]?;
    assert_eq!(rt; run(rt.alloc(), words.as_slice(), &mut desk), Status::Usage);
    assert!(rt; desk.told().is_empty());
    assert_eq!(rt; run(rt.alloc(), &[], &mut desk), Status::AllAccepted);
    Ok(())
}

#[test]
fn stops_at_a_call_that_fails(rt: HostRuntime) -> Result<(), Fail> {
    let alloc = rt.alloc();
    for (number, told) in [(1, 0), (2, first::REPLIES.len())] {
        let mut desk = desk(alloc, first::COMMANDS, &[number], &[])?;
        assert_eq!(rt;
            run(alloc, &[], &mut desk),
            Status::ReadFault,
            "take {number}"
        );
        assert_eq!(rt; desk.told().len(), told, "take {number}");
    }
    for (number, told) in [(1, 0), (2, 3), (3, 6), (4, 9)] {
        let mut desk = desk(alloc, first::COMMANDS, &[], &[number])?;
        assert_eq!(rt;
            run(alloc, &[], &mut desk),
            Status::TellFault,
            "tell {number}"
        );
        assert_eq!(rt; desk.told().len(), told, "tell {number}");
    }
    Ok(())
}

#[test]
fn moves_one_byte_at_a_time(rt: HostRuntime) -> Result<(), Fail> {
    let mut drip = Drip {
        desk: desk(rt.alloc(), first::COMMANDS, &[], &[])?,
    };
    assert_eq!(rt; run(rt.alloc(), &[], &mut drip), Status::AllAccepted);
    let Drip { desk } = drip;
    assert!(rt; desk.told() == first::REPLIES);
    Ok(())
}

/// Whether an input is answered with these replies, and ends as they say.
fn is_told(alloc: Global, input: &[u8], replies: &[u8]) -> Result<bool, NoMemory> {
    let mut desk = desk(alloc, input, &[], &[])?;
    let is_refused = replies
        .split(|byte| *byte == b'\n')
        .any(|line| line.starts_with(b"refused "));
    let status = run(alloc, &[], &mut desk);
    Ok(status == done(is_refused) && desk.told() == replies)
}

/// Whether the lines of a transcript have the replies that it has below them.
fn is_right(alloc: Global, transcript: &[u8]) -> Result<bool, NoMemory> {
    let mut input = Vec::new(alloc);
    let mut replies = Vec::new(alloc);
    for line in transcript.split_inclusive(|byte| *byte == b'\n') {
        match line {
            [b'>', b' ', command @ ..] => input.extend_from_slice(command)?,
            _ => replies.extend_from_slice(line)?,
        }
    }
    is_told(alloc, &input, &replies)
}

/// The first of some transcripts that is not right.
fn first_wrong(alloc: Global, transcripts: &[&[u8]]) -> Result<Option<usize>, NoMemory> {
    for (number, transcript) in transcripts.iter().enumerate() {
        if !is_right(alloc, transcript)? {
            return Ok(Some(number));
        }
    }
    Ok(None)
}

#[test]
fn answers_as_in_the_transcripts(rt: HostRuntime) -> Result<(), Fail> {
    let alloc = rt.alloc();
    assert_eq!(rt; first_wrong(alloc, &transcripts())?, None, "transcripts");
    assert_eq!(rt; first_wrong(alloc, &trees())?, None, "transcripts on trees");
    assert_eq!(rt; first_wrong(alloc, &pages())?, None, "transcripts on pages");
    assert_eq!(rt; first_wrong(alloc, &boxes())?, None, "transcripts on boxes");
    assert_eq!(rt;
        first_wrong(alloc, &reasons())?,
        None,
        "transcripts on reasons"
    );
    assert_eq!(rt; first_wrong(alloc, &edits())?, None, "transcripts on edits");
    assert_eq!(rt; first_wrong(alloc, &units())?, None, "transcripts on units");
    assert_eq!(rt;
        first_wrong(alloc, &statuses())?,
        None,
        "transcripts on statuses"
    );
    assert_eq!(rt; first_wrong(alloc, &worked())?, None, "worked examples");
    Ok(())
}

#[test]
fn answers_as_in_the_examples(rt: HostRuntime) -> Result<(), Fail> {
    for (number, (input, replies)) in examples().iter().enumerate() {
        assert!(rt; is_told(rt.alloc(), input, replies)?, "example {number}");
    }
    Ok(())
}

/// Adds a proof of 32 boxes, each but the first in the one before.
fn add_boxes(input: &mut String, replies: &mut String) -> Result<(), NoMemory> {
    input.push_str("proof r m\nbox r m b1 in root : |\n")?;
    replies.push_str("ok\nok\n")?;
    for number in 1u32..32 {
        writeln!(input, "box r m b{} in b{number} : |", number + 1)?;
        replies.push_str("ok\n")?;
    }
    Ok(())
}

#[test]
fn refuses_more_than_a_proof_has(rt: HostRuntime) -> Result<(), Fail> {
    let alloc = rt.alloc();
    let mut input = String::new(alloc);
    let mut replies = String::new(alloc);
    add_boxes(&mut input, &mut replies)?;
    input.push_str(ONE_DEEPER)?;
    replies.push_str(ONE_DEEPER_REPLIES)?;
    for number in 0u32..4062 {
        writeln!(input, "line r m l{number} in b1 : p")?;
        replies.push_str("ok\n")?;
    }
    input.push_str(ONE_MORE)?;
    replies.push_str(ONE_MORE_REPLIES)?;
    assert!(rt; is_told(alloc, input.as_bytes(), replies.as_bytes())?);
    Ok(())
}

const ONE_DEEPER: &str = "\
box r m c in b32 : |
box r m c in b32 : x:N, x:N |
box r m b1 in b32 : x:N, x:N |
box r m b1 in b32 before d : |
box r m c in b31 before b32 : |
box r m d in c : |
line r m l in c : p
";

const ONE_DEEPER_REPLIES: &str = "\
refused too-many boxes
refused taken x
refused taken b1
refused unknown d
ok
refused too-many boxes
ok
";

const ONE_MORE: &str = "\
line r m k in root : p
box r m k in root : |
box r m k in b32 : |
box r m k in root : x:N, x:N |
line r m l0 in root : p
line r m k in root before k : p
line r m k in l0 : p
";

const ONE_MORE_REPLIES: &str = "\
refused too-many items
refused too-many items
refused too-many boxes
refused taken x
refused taken l0
refused unknown k
refused unknown l0
";

#[test]
fn reads_lines_of_65536_bytes(rt: HostRuntime) -> Result<(), Fail> {
    let alloc = rt.alloc();
    let mut input = Vec::from_slice(alloc, b"theory t")?;
    input.resize(65536, b' ')?;
    input.extend_from_slice(b"\ntheory u")?;
    input.resize(65536 + 65538, b' ')?;
    input.extend_from_slice(b"\ntheory u\n")?;
    let mut desk = desk(alloc, &input, &[], &[])?;
    assert_eq!(rt; run(alloc, &[], &mut desk), Status::SomeRefused);
    assert!(rt; desk.told() == b"ok\nrefused line-too-long\nok\n".as_slice());
    Ok(())
}

/// Adds a line that states an axiom: a name, so many times each of these, and an end.
fn add_axiom(input: &mut Vec<u8>, name: &[u8], parts: &[(&[u8], usize)]) -> Result<(), NoMemory> {
    input.extend_from_slice(b"axiom t ")?;
    input.extend_from_slice(name)?;
    input.extend_from_slice(b" : ")?;
    for (text, count) in parts {
        for _ in 0..*count {
            input.extend_from_slice(text)?;
        }
    }
    input.push(b'\n')?;
    Ok(())
}

#[test]
fn reads_large_trees(rt: HostRuntime) -> Result<(), Fail> {
    let alloc = rt.alloc();
    let mut input = Vec::from_slice(alloc, b"theory t\nconst t p -> e\nconst t f(e) -> e\n")?;
    input.extend_from_slice(b"const t wide(e")?;
    for _ in 1..4095 {
        input.extend_from_slice(b", e")?;
    }
    input.extend_from_slice(b") -> e\n")?;
    let open: &[u8] = b"f(";
    let wide: &[u8] = b"wide(";
    let more: &[u8] = b"p, ";
    let (p, close): (&[u8], &[u8]) = (b"p", b")");

    // 4,096 nodes and 4,097; depth 200 and 201; 400 open levels, 401, and a chain of 4,096 nodes
    add_axiom(
        &mut input,
        b"a",
        &[(wide, 1), (more, 4094), (p, 1), (close, 1)],
    )?;
    add_axiom(
        &mut input,
        b"b",
        &[(wide, 1), (more, 4095), (p, 1), (close, 1)],
    )?;
    add_axiom(&mut input, b"c", &[(open, 199), (p, 1), (close, 199)])?;
    add_axiom(&mut input, b"d", &[(open, 200), (p, 1), (close, 200)])?;
    add_axiom(&mut input, b"g", &[(open, 400), (p, 1), (close, 400)])?;
    add_axiom(&mut input, b"h", &[(open, 401), (p, 1), (close, 401)])?;
    add_axiom(&mut input, b"i", &[(open, 4095), (p, 1), (close, 4095)])?;
    add_operators(&mut input)?;
    add_long_texts(&mut input)?;
    input.extend_from_slice(b"status a\nstatus c\n")?;
    let mut desk = desk(alloc, &input, &[], &[])?;
    assert_eq!(rt; run(alloc, &[], &mut desk), Status::SomeRefused);
    assert!(rt; desk.told() == LARGE_REPLIES);
    Ok(())
}

/// Adds axioms at the limits that are made of operators and binders.
fn add_operators(input: &mut Vec<u8>) -> Result<(), NoMemory> {
    let not: &[u8] = b"not ";
    let imp: &[u8] = b"p => ";
    let or: &[u8] = b"p or ";
    let all: &[u8] = b"forall{x:p. ";
    let (p, close, long): (&[u8], &[u8], &[u8]) = (b"p", b"}", &[b'a'; 65]);

    // depth 200 and 201, 400 open levels and 401
    add_axiom(input, b"j", &[(not, 199), (p, 1)])?;
    add_axiom(input, b"k", &[(not, 200), (p, 1)])?;
    add_axiom(input, b"l", &[(imp, 400), (p, 1)])?;
    add_axiom(input, b"m", &[(imp, 401), (p, 1)])?;
    add_axiom(input, b"n", &[(all, 199), (p, 1), (close, 199)])?;
    add_axiom(input, b"o", &[(all, 400), (p, 1), (close, 400)])?;
    add_axiom(input, b"o", &[(all, 401), (p, 1), (close, 401)])?;

    // 4,097 nodes that are 2,049 deep, also with a long name, and what is not read whole
    add_axiom(input, b"q", &[(or, 2048), (p, 1)])?;
    add_axiom(input, b"q", &[(or, 2048), (long, 1)])?;
    add_axiom(input, b"q", &[(or, 2048), (not, 1)])?;
    Ok(())
}

/// Adds two axioms whose canonical texts have 65,536 bytes and one more, since it has blanks that the lines have not.
fn add_long_texts(input: &mut Vec<u8>) -> Result<(), NoMemory> {
    let more: &[u8] = b"p;";
    let end: &[u8] = b"p|-p";
    add_axiom(input, b"ra", &[(more, 21839), (end, 1)])?;
    add_axiom(input, b"rab", &[(more, 21839), (end, 1)])
}

const LARGE_REPLIES: &[u8] = b"\
ok
ok
ok
ok
ok
refused limit nodes
ok
refused limit depth
refused limit depth
refused syntax 814
refused syntax 814
ok
refused limit depth
refused limit depth
refused syntax 2015
ok
refused limit depth
refused syntax 4819
refused limit nodes
refused limit name
refused syntax 10256
ok
refused limit text
a axiom established
c axiom established
";

#[test]
fn gives_up_behind_2_to_the_28_bytes(rt: HostRuntime) {
    let mut blanks = Blanks {
        left: MOST_INPUT + 1,
        attached: false,
    };
    assert_eq!(rt; run(rt.alloc(), &[], &mut blanks), Status::InputTooLong);
}
