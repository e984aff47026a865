// Lines by themselves: their words, and which of them is missing, extra, empty or misformed.
use crate::common::{
    Case, PROPOSAL, RIGHT_PROPOSAL, RIGHT_TERMS, RIGHT_WORDS, TERMS, WORDS, run, run_lines,
};
use line::lines::File;
use line::reading::{read_line, recognise};
use text::faults::LineFault;
use text::lines::cut_line;

fn line_fault(file: File, bytes: &[u8]) -> Result<(), LineFault> {
    let (line, _) = cut_line(bytes)?;
    let (key, rest) = recognise(file, line)?;
    read_line(file, key, rest)?;
    Ok(())
}

fn refusal(file: File, bytes: &[u8]) -> (u8, usize, usize) {
    match line_fault(file, bytes) {
        Ok(()) => (0, 0, 0),
        Err(fault) => (fault.wrong.number(), 1, fault.column),
    }
}

#[test]
fn words_of_a_protocol(rt: HostRuntime) {
    run(&rt, &WORDS, |bytes| refusal(File::Protocol, bytes));
    run_lines(
        &rt,
        &RIGHT_WORDS,
        (0, 0, 0),
        |bytes| refusal(File::Protocol, bytes),
    );
}

#[test]
fn words_of_a_term(rt: HostRuntime) {
    run(&rt, &TERMS, |bytes| refusal(File::Protocol, bytes));
    run_lines(
        &rt,
        &RIGHT_TERMS,
        (0, 0, 0),
        |bytes| refusal(File::Protocol, bytes),
    );
}

#[test]
fn lines_of_a_proposal(rt: HostRuntime) {
    run(&rt, &PROPOSAL, |bytes| refusal(File::Proposal, bytes));
    run_lines(
        &rt,
        &RIGHT_PROPOSAL,
        (0, 0, 0),
        |bytes| refusal(File::Proposal, bytes),
    );
}
