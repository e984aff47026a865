// Reads `protocol.txt` and `proposal.txt` in the folder that it runs in, and prints what they say or where they are at
// fault.

#![tactic(auto)]

use account::{Account, survey};
use keys::Key;
use line::lines::File;
use showing::{open_file, read_protocol};
use std::io;

// The keys of a proposal, in the order of its lines.
const OF_A_PROPOSAL: [Key; 5] = [Key::Proposal, Key::Term, Key::Inv, Key::Cause, Key::End];

fn print_account(rt: &HostRuntime, account: &Account) -> io::Result<()> {
    for key in OF_A_PROPOSAL {
        let word = key.word();
        let count = account.lines_of(key);
        println!(rt; "  {word} {count}")?;
    }
    match account.fault {
        None => println!(rt; "  read to its end"),
        Some(fault) => println!(rt; "  {fault}"),
    }
}

fn main(rt: HostRuntime) -> io::Result<()> {
    let _protocol = read_protocol(&rt)?;
    let text = open_file(&rt, "proposal.txt")?;
    print_account(&rt, &survey(File::Proposal, &text))
}
