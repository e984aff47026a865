// What the programs share: reading a file, and printing a protocol or a fault.

#![tactic(auto)]

ghost use Rattle.std.specs.Prelude.{◌≡◌, [], IfOk, IfSome};
ghost use Rattle.std.specs.Str.{IsUtf8};
ghost use Rattle.protocol.specs.Answers.{protocol_seen};
ghost use Rattle.protocol.specs.Lawful.{Lawful};

use protocol::record::Protocol;
use protocol::whole_file::read;
use reading::faults::ReadFault;
use std::io::ErrorKind;
use std::{fs, io};

// The bytes of a file. One that is missing counts as empty.
fn read_or_empty(rt: &HostRuntime, path: &str) -> io::Result<Vec<u8>> {
    match fs::read(rt, path) {
        Err(error) if error.kind() == ErrorKind::NotFound => Ok(Vec::new(rt.alloc())),
        answer => answer,
    }
}

// The bytes of a file, of which it prints how many they are.
pub fn open_file(rt: &HostRuntime, path: &str) -> io::Result<Vec<u8>> {
    let text = read_or_empty(rt, path)?;
    let bytes = text.len();
    println!(rt; "{path}: {bytes} bytes")?;
    Ok(text)
}

// The text of a name, which is made of letters, digits and a few signs. Bytes that are no text give none.
pub fn as_text(bytes: &[u8]) -> &str
    ensures text_stays { IsUtf8 bytes.now → result.now ≡ bytes.now }
    ensures else_there_is_none { (IsUtf8 bytes.now → ⊥) → result.now ≡ [] }
{
    std::str::from_utf8(bytes).unwrap_or("")
}

// What a protocol says.
fn print_protocol(rt: &HostRuntime, protocol: &Protocol) -> io::Result<()> {
    let name = as_text(protocol.name());
    let types = protocol.type_count();
    let variables = protocol.variable_count();
    let states = protocol.state_count();
    let terms = protocol.terms().len();
    let initial = protocol.initial().len();
    let rules = protocol.rule_count();
    println!(rt; "  name {name}")?;
    println!(rt; "  types {types}")?;
    println!(rt; "  variables {variables}, states {states}")?;
    println!(rt; "  terms {terms}")?;
    println!(rt; "  initial formulas {initial}")?;
    println!(rt; "  rules {rules}")?;
    for rule in protocol.rules() {
        let name = as_text(rule.name.as_bytes());
        let assignments = rule.sets.len();
        println!(rt; "    {name}, assignments {assignments}")?;
    }
    println!(rt; "  read to its end")
}

// Reads `protocol.txt` and prints what it says, or where it is at fault. None if it is refused.
pub fn read_protocol(rt: &HostRuntime) -> io::Result<Option<Protocol>>
    ensures what_is_read_obeys_all_limits_and_sorts { IfOk result (λ read. IfSome read (λ protocol. Lawful (protocol_seen protocol))) }
{
    let text = open_file(rt, "protocol.txt")?;
    let mut protocol = Protocol::empty(rt.alloc());
    match read(rt.alloc(), &text, &mut protocol) {
        Ok(()) => {
            print_protocol(rt, &protocol)?;
            Ok(Some(protocol))
        }
        Err(fault) => {
            print_fault(rt, fault)?;
            Ok(None)
        }
    }
}

// Why a file is not read.
pub fn print_fault(rt: &HostRuntime, fault: ReadFault) -> io::Result<()> {
    match fault {
        ReadFault::Refused(fault) => println!(rt; "  {fault}"),
        ReadFault::Memory => println!(rt; "  not read: no memory"),
    }
}

#[cfg(test)]
mod tests {
    use super::*;
    use std::test::Fail;

    // A file that is not there counts as empty.
    #[test]
    fn missing_file(rt: HostRuntime) -> Result<(), Fail> {
        let bytes = read_or_empty(&rt, "no such file")?;
        assert!(rt; bytes.is_empty());
        Ok(())
    }

    // A file that is there is read whole, and a protocol in it is given.
    #[test]
    fn file_that_is_there(rt: HostRuntime) -> Result<(), Fail> {
        let text = b"protocol=p\ntype=T a b\nvar=x T\nterm=true\ninit=0\nend=protocol\n".as_slice();
        fs::write(&rt, "protocol.txt", text)?;
        let bytes = open_file(&rt, "protocol.txt")?;
        let protocol = read_protocol(&rt)?;
        fs::remove_file(&rt, "protocol.txt")?;
        assert!(rt; bytes.as_slice() == text);
        assert!(rt; protocol.is_some());
        Ok(())
    }
}
