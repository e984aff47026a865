// What all cases share.
use protocol::record::Protocol;
use protocol::whole_file::read;
use reading::faults::ReadFault;
use std::alloc::{AllocError, Global};
use std::process::Abort;

// Some bytes, and the number, line and column of their refusal; three zeros if they are read to their end.
pub(crate) struct Case(pub &'static [u8], pub u8, pub usize, pub usize);

// The number, line and column of an answer; three zeros if there is no fault.
pub(crate) fn told(answer: Result<(), ReadFault>) -> (u8, usize, usize) {
    match answer {
        Ok(()) => (0, 0, 0),
        Err(ReadFault::Refused(fault)) => (fault.number(), fault.line(), fault.column()),
        Err(ReadFault::Memory) => (255, 0, 0),
    }
}

// Each case is refused as it says, where `refusal` tells how bytes are refused.
pub(crate) fn run<F: Fn(&[u8]) -> (u8, usize, usize)>(rt: &impl Abort, cases: &[Case], refusal: F)
    requires may_be_called { F.IsAlwaysCallable refusal }
{
    for Case(bytes, number, line, column) in cases {
        assert_eq!(rt; refusal(*bytes), (*number, *line, *column));
    }
}

// Each line is refused with this number, line and column.
pub(crate) fn run_lines<F: Fn(&[u8]) -> (u8, usize, usize)>(
    rt: &impl Abort,
    lines: &[&[u8]],
    refused: (u8, usize, usize),
    refusal: F,
)
    requires may_be_called { F.IsAlwaysCallable refusal }
{
    for line in lines {
        assert_eq!(rt; refusal(*line), refused);
    }
}

// What reading a protocol file answers.
pub(crate) fn protocol_refusal(heap: Global, bytes: &[u8]) -> (u8, usize, usize) {
    let mut protocol = Protocol::empty(heap);
    told(read(heap, bytes, &mut protocol))
}

// `count` times the first part, and then the second.
pub(crate) fn repeated(
    heap: Global,
    part: &[u8],
    count: usize,
    then: &[u8],
) -> Result<Vec<u8>, AllocError> {
    let mut text = Vec::new(heap);
    for _ in 0..count {
        text.extend_from_slice(part)?;
    }
    text.extend_from_slice(then)?;
    Ok(text)
}

// Bytes that may not stand in a line, at each of its edges, and line feeds that are missing.
pub(crate) const BYTES: [Case; 31] = [
    Case(b"", 3, 1, 1),
    Case(b"\n", 4, 1, 1),
    Case(b"a", 3, 1, 1),
    Case(b" ", 3, 1, 1),
    Case(b"~", 3, 1, 1),
    Case(b"\0", 2, 1, 1),
    Case(b"\r", 2, 1, 1),
    Case(b"\x1f", 2, 1, 1),
    Case(b"\x7f", 2, 1, 1),
    Case(b"\xff", 2, 1, 1),
    Case(b"\n\n\n", 4, 1, 1),
    Case(b"\0protocol=a\n", 2, 1, 1),
    Case(b"\rprotocol=a\n", 2, 1, 1),
    Case(b"\x1fprotocol=a\n", 2, 1, 1),
    Case(b"\x7fprotocol=a\n", 2, 1, 1),
    Case(b"\xffprotocol=a\n", 2, 1, 1),
    Case(b"\nprotocol=a\n", 4, 1, 1),
    Case(b"protocol=a\0\n", 2, 1, 11),
    Case(b"protocol=a\r\n", 2, 1, 11),
    Case(b"protocol=a\x1f\n", 2, 1, 11),
    Case(b"protocol=a\x7f\n", 2, 1, 11),
    Case(b"protocol=a\xff\n", 2, 1, 11),
    Case(b"protocol=a\n\n", 4, 2, 1),
    Case(b"protocol=a\n\0", 2, 2, 1),
    Case(b"protocol=a\n\r", 2, 2, 1),
    Case(b"protocol=a\n\x1f", 2, 2, 1),
    Case(b"protocol=a\n\x7f", 2, 2, 1),
    Case(b"protocol=a\n\xff", 2, 2, 1),
    Case(b"protocol=a\n", 3, 2, 1),
    Case(b"protocol=a", 3, 1, 1),
    Case(b"end=protocol", 3, 1, 1),
];

// Keys that are absent, unknown or the other file's.
pub(crate) const KEYS: [Case; 12] = [
    Case(b"protocol\n", 4, 1, 1),
    Case(b"=a\n", 4, 1, 1),
    Case(b"Protocol=a\n", 4, 1, 1),
    Case(b" protocol=a\n", 4, 1, 1),
    Case(b"protocol =a\n", 4, 1, 1),
    Case(b"proto=a\n", 4, 1, 1),
    Case(b"termx=true\n", 4, 1, 1),
    Case(b"inv=a 1\n", 4, 1, 1),
    Case(b"cause=a b 1\n", 4, 1, 1),
    Case(b"proposal=a\n", 4, 1, 1),
    Case(b"inv=\n", 4, 1, 1),
    Case(b"protocol=a\nfoo=1\n", 4, 2, 1),
];

// Lines of so many letters with what follows them, and where they are at fault: a line may have 255 bytes and no more, closed
// or not, and a bad byte before the 256th counts first.
pub(crate) const LONG_LINES: [(usize, Case); 8] = [
    (255, Case(b"\n", 4, 1, 1)),
    (256, Case(b"\n", 2, 1, 256)),
    (65000, Case(b"\n", 2, 1, 256)),
    (255, Case(b"", 3, 1, 1)),
    (256, Case(b"", 2, 1, 256)),
    (254, Case(b"\0\n", 2, 1, 255)),
    (255, Case(b"\0\n", 2, 1, 256)),
    (256, Case(b"\0\n", 2, 1, 256)),
];

// Words of a protocol's lines that are at fault.
pub(crate) const WORDS: [Case; 30] = [
    Case(b"protocol=\n", 5, 1, 10),
    Case(b"protocol= a\n", 5, 1, 10),
    Case(b"protocol=a \n", 5, 1, 12),
    Case(b"protocol=a b\n", 5, 1, 12),
    Case(b"protocol=a  b\n", 5, 1, 12),
    Case(b"protocol=abcdefghijklmnopq\n", 5, 1, 10),
    Case(b"protocol=a-b\n", 5, 1, 10),
    Case(b"protocol=a=b\n", 5, 1, 10),
    Case(b"type=S\n", 5, 1, 7),
    Case(b"type=S a\n", 5, 1, 9),
    Case(b"type=S a  b\n", 5, 1, 10),
    Case(b"type=S a b c-\n", 5, 1, 12),
    Case(b"type=S a b \n", 5, 1, 12),
    Case(b"type= a b\n", 5, 1, 6),
    Case(b"type=S a- b-\n", 5, 1, 8),
    Case(b"var=a\n", 5, 1, 6),
    Case(b"var=a b c\n", 5, 1, 9),
    Case(b"init=\n", 5, 1, 6),
    Case(b"init=x\n", 5, 1, 6),
    Case(b"init=1 2\n", 5, 1, 8),
    Case(b"rule=r\n", 5, 1, 7),
    Case(b"rule=r 1 2\n", 5, 1, 10),
    Case(b"rule=r r\n", 5, 1, 8),
    Case(b"rule=- -\n", 5, 1, 6),
    Case(b"set=v\n", 5, 1, 6),
    Case(b"set=v 2 \n", 5, 1, 9),
    Case(b"end=\n", 5, 1, 5),
    Case(b"end=proposal\n", 5, 1, 5),
    Case(b"end=protocol x\n", 5, 1, 14),
    Case(b"end=protocolx\n", 5, 1, 5),
];

// Words of a term that are at fault.
pub(crate) const TERMS: [Case; 21] = [
    Case(b"term=\n", 5, 1, 6),
    Case(b"term=foo\n", 5, 1, 6),
    Case(b"term=foo 1 2 3 4 5\n", 5, 1, 6),
    Case(b"term=var\n", 5, 1, 9),
    Case(b"term=var a-\n", 5, 1, 10),
    Case(b"term=val S\n", 5, 1, 11),
    Case(b"term=true x\n", 5, 1, 11),
    Case(b"term=true \n", 5, 1, 11),
    Case(b"term=TRUE\n", 5, 1, 6),
    Case(b"term=eq 1\n", 5, 1, 10),
    Case(b"term=eq 07 1\n", 5, 1, 9),
    Case(b"term=eq 00 1\n", 5, 1, 9),
    Case(b"term=eq 1000 1\n", 5, 1, 9),
    Case(b"term=eq 1 1 1\n", 5, 1, 13),
    Case(b"term=eq 4  5\n", 5, 1, 11),
    Case(b"term=not +1\n", 5, 1, 10),
    Case(b"term=not 1:\n", 5, 1, 10),
    Case(b"term=not /\n", 5, 1, 10),
    Case(b"term=imp 1 x\n", 5, 1, 12),
    Case(b"term=ite 1 2\n", 5, 1, 13),
    Case(b"term=ite 1 2 3 4\n", 5, 1, 16),
];

// Lines of a proposal that are at fault.
pub(crate) const PROPOSAL: [Case; 20] = [
    Case(b"protocol=a\n", 4, 1, 1),
    Case(b"rule=r 1\n", 4, 1, 1),
    Case(b"type=S a b\n", 4, 1, 1),
    Case(b"var=a b\n", 4, 1, 1),
    Case(b"init=1\n", 4, 1, 1),
    Case(b"set=a 1\n", 4, 1, 1),
    Case(b"proposal=a b\n", 5, 1, 12),
    Case(b"inv=a\n", 5, 1, 6),
    Case(b"inv=a 1 1\n", 5, 1, 9),
    Case(b"cause=r i\n", 5, 1, 10),
    Case(b"cause=r i 3\n", 5, 1, 12),
    Case(b"cause=r i 4\n", 5, 1, 11),
    Case(b"cause=r i 0\n", 5, 1, 11),
    Case(b"cause=r i 01\n", 5, 1, 11),
    Case(b"cause=r i 1 p\n", 5, 1, 13),
    Case(b"cause=r i 2 p\n", 5, 1, 13),
    Case(b"cause=r i 3 p q\n", 5, 1, 15),
    Case(b"cause=r i 3 p-\n", 5, 1, 13),
    Case(b"cause=r- i 9\n", 5, 1, 7),
    Case(b"end=protocol\n", 5, 1, 5),
];

// Lines of a protocol whose words are right.
pub(crate) const RIGHT_WORDS: [&'static [u8]; 7] = [
    b"protocol=abcdefghijklmnop\n",
    b"protocol=aZ0_.[]\n",
    b"type=S a b\n",
    b"var=a b\n",
    b"init=0\n",
    b"rule=r 1\n",
    b"set=v 2\n",
];

// Terms whose words are right.
pub(crate) const RIGHT_TERMS: [&'static [u8]; 10] = [
    b"term=var a\n",
    b"term=val S a\n",
    b"term=true\n",
    b"term=false\n",
    b"term=eq 999 0\n",
    b"term=not 3\n",
    b"term=and 1 2\n",
    b"term=or 1 2\n",
    b"term=imp 1 2\n",
    b"term=ite 1 2 3\n",
];

// Lines of a proposal whose words are right.
pub(crate) const RIGHT_PROPOSAL: [&'static [u8]; 5] = [
    b"term=true\n",
    b"inv=a 1\n",
    b"cause=r i 1\n",
    b"cause=r i 2\n",
    b"cause=r i 3 p\n",
];
