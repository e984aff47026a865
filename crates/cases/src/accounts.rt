// Accounts of files: how far they are read, line by line.
use crate::common::{
    BYTES, Case, KEYS, LONG_LINES, PROPOSAL, RIGHT_PROPOSAL, RIGHT_TERMS, RIGHT_WORDS, TERMS,
    WORDS, repeated, run, run_lines,
};
use account::survey;
use line::lines::File;
use std::test::Fail;

// Files with an `end` line, and bytes behind it.
const MORE_BYTES: [Case; 3] = [
    Case(b"end=protocol\n", 0, 0, 0),
    Case(b"end=protocol\nx", 3, 2, 1),
    Case(b"end=protocol\n\x01", 2, 2, 1),
];

// Keys behind the end.
const MORE_KEYS: [Case; 2] = [
    Case(b"end=protocol\nend=protocol\n", 4, 2, 1),
    Case(b"end=protocol\nterm=foo\n", 4, 2, 1),
];

// Whole files of a proposal.
const WHOLE_PROPOSAL: [Case; 3] = [
    Case(b"", 3, 1, 1),
    Case(b"proposal=a\nend=proposal\n", 0, 0, 0),
    Case(b"end=proposal\nproposal=a\n", 4, 2, 1),
];

fn refusal(file: File, bytes: &[u8]) -> (u8, usize, usize) {
    match survey(file, bytes).fault {
        None => (0, 0, 0),
        Some(fault) => (fault.number(), fault.line(), fault.column()),
    }
}

// Behind a line that is right, the next is missing.
const NEXT_IS_MISSING: (u8, usize, usize) = (3, 2, 1);

#[test]
fn bytes_and_line_feeds(rt: HostRuntime) {
    run(&rt, &BYTES, |bytes| refusal(File::Protocol, bytes));
    run(&rt, &MORE_BYTES, |bytes| refusal(File::Protocol, bytes));
}

#[test]
fn keys(rt: HostRuntime) {
    run(&rt, &KEYS, |bytes| refusal(File::Protocol, bytes));
    run(&rt, &MORE_KEYS, |bytes| refusal(File::Protocol, bytes));
}

#[test]
fn words_of_a_protocol(rt: HostRuntime) {
    run(&rt, &WORDS, |bytes| refusal(File::Protocol, bytes));
    run_lines(
        &rt,
        &RIGHT_WORDS,
        NEXT_IS_MISSING,
        |bytes| refusal(File::Protocol, bytes),
    );
}

#[test]
fn words_of_a_term(rt: HostRuntime) {
    run(&rt, &TERMS, |bytes| refusal(File::Protocol, bytes));
    run_lines(
        &rt,
        &RIGHT_TERMS,
        NEXT_IS_MISSING,
        |bytes| refusal(File::Protocol, bytes),
    );
}

#[test]
fn lines_of_a_proposal(rt: HostRuntime) {
    run(&rt, &PROPOSAL, |bytes| refusal(File::Proposal, bytes));
    run_lines(
        &rt,
        &RIGHT_PROPOSAL,
        NEXT_IS_MISSING,
        |bytes| refusal(File::Proposal, bytes),
    );
    run(&rt, &WHOLE_PROPOSAL, |bytes| refusal(File::Proposal, bytes));
}

#[test]
fn long_lines(rt: HostRuntime) -> Result<(), Fail> {
    for (count, Case(then, number, line, column)) in &LONG_LINES {
        let text = repeated(rt.alloc(), b"x", *count, *then)?;
        assert_eq!(rt; refusal(File::Protocol, &text), (*number, *line, *column));
    }
    Ok(())
}

// 65,536 bytes are allowed. One more is refused before anything else, bad bytes or not.
#[test]
fn long_files(rt: HostRuntime) -> Result<(), Fail> {
    let heap = rt.alloc();
    let most = repeated(heap, b"var=a b\n", 8189, b"var=aaa bb\nend=protocol\n")?;
    assert_eq!(rt; most.len(), 65536);
    assert_eq!(rt; refusal(File::Protocol, &most), (0, 0, 0));
    let more = repeated(heap, b"var=a b\n", 8189, b"var=aaa bbb\nend=protocol\n")?;
    assert_eq!(rt; more.len(), 65537);
    assert_eq!(rt; refusal(File::Protocol, &more), (1, 0, 0));
    assert_eq!(rt;
        refusal(File::Proposal, &repeated(heap, b"\0", 65537, b"")?),
        (1, 0, 0)
    );
    assert_eq!(rt;
        refusal(File::Proposal, &repeated(heap, b"\0", 65536, b"")?),
        (2, 1, 1)
    );
    assert_eq!(rt;
        refusal(File::Proposal, &repeated(heap, b"\n", 65536, b"")?),
        (4, 1, 1)
    );
    Ok(())
}
