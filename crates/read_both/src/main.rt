// Reads `protocol.txt` and `proposal.txt` in the folder that it runs in, and prints what they say or where they are at
// fault.

#![tactic(auto)]

use proposal::claims::Cause;
use proposal::record::Proposal;
use proposal::whole_file as proposal_file;
use protocol::record::Protocol;
use showing::{as_text, open_file, print_fault, read_protocol};
use std::io;

// How many claims a proposal has, and how many for each kind of cause.
fn print_claims(rt: &HostRuntime, proposal: &Proposal) -> io::Result<()> {
    let causes = proposal.claims();
    let by_guard = causes
        .iter()
        .filter(|claim| matches!(claim.cause, Cause::Guard))
        .count();
    let unchanged = causes
        .iter()
        .filter(|claim| matches!(claim.cause, Cause::Unchanged))
        .count();
    let with_partner = causes
        .iter()
        .filter(|claim| matches!(claim.cause, Cause::Partner(_)))
        .count();
    let causes = causes.len();
    println!(rt;
        "  causes {causes}: by the guard {by_guard}, unchanged {unchanged}, with a partner {with_partner}"
    )
}

fn print_proposal(rt: &HostRuntime, proposal: &Proposal) -> io::Result<()> {
    let name = as_text(proposal.name());
    let terms = proposal.terms().terms.len();
    let invariants = proposal.invariants().len();
    println!(rt; "  name {name}")?;
    println!(rt; "  terms {terms}")?;
    println!(rt; "  invariants {invariants}")?;
    for invariant in proposal.invariants() {
        let name = as_text(invariant.name.as_bytes());
        let line = invariant.line;
        println!(rt; "    {name}, line {line}")?;
    }
    print_claims(rt, proposal)?;
    println!(rt; "  read to its end")
}

fn read_proposal(rt: &HostRuntime, protocol: &Protocol) -> io::Result<()> {
    let text = open_file(rt, "proposal.txt")?;
    let mut proposal = Proposal::empty(rt.alloc());
    match proposal_file::read(rt.alloc(), protocol, &text, &mut proposal) {
        Ok(()) => print_proposal(rt, &proposal),
        Err(fault) => print_fault(rt, fault),
    }
}

fn main(rt: HostRuntime) -> io::Result<()> {
    match read_protocol(&rt)? {
        Some(protocol) => read_proposal(&rt, &protocol),
        None => println!(rt; "proposal.txt: not read, since there is no protocol to read it with"),
    }
}
