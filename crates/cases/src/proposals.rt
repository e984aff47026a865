// Proposal files, read with their protocol.
use crate::common::{Case, repeated, told};
use proposal::record::Proposal;
use proposal::whole_file::read;
use protocol::record::Protocol;
use protocol::whole_file;
use std::alloc::{AllocError, Global};
use std::process::Abort;
use std::test::Fail;

// The protocol that the proposals below are read with.
const PROTOCOL: &[u8] =
    b"protocol=p\ntype=S a b\nvar=x S\nterm=var x\nterm=val S a\nterm=eq 0 1\nterm=true\ninit=2\nrule=r 2\nset=x 1\nrule=s 3\nend=protocol\n";

// Whole proposal files, most of them a change of the first: bytes, line feeds and keys.
const BYTES_AND_KEYS: [Case; 39] = [
    Case(
        b"proposal=p\nterm=not 2\nterm=or 2 4\ninv=i 4\ninv=j 5\ncause=r i 1\ncause=s i 3 j\ncause=r j 2\nend=proposal\n",
        0,
        0,
        0,
    ),
    Case(b"proposal=p\nend=proposal\n", 0, 0, 0),
    Case(b"proposal=p\ninv=i 2\nend=proposal\n", 0, 0, 0),
    Case(b"proposal=p\nterm=true\nend=proposal\n", 0, 0, 0),
    Case(b"proposal=p\ninv=i 2\ncause=s i 2\nend=proposal\n", 0, 0, 0),
    Case(
        b"proposal=p\r\nterm=not 2\nterm=or 2 4\ninv=i 4\ninv=j 5\ncause=r i 1\ncause=s i 3 j\ncause=r j 2\nend=proposal\n",
        2,
        1,
        11,
    ),
    Case(
        b"proposal=p\nterm=not 2\nterm=or 2 4\ninv=i\t4\ninv=j 5\ncause=r i 1\ncause=s i 3 j\ncause=r j 2\nend=proposal\n",
        2,
        4,
        6,
    ),
    Case(
        b"proposal=p\nterm=not 2\nterm=or 2 4\ninv=i 4\ninv=j 5\ncause=r i 1\ncause=s i 3 j\ncause=r j 2\nend=proposal\n\x01",
        2,
        10,
        1,
    ),
    Case(
        b"proposal=p\nterm=not 2\nterm=or 2 4\ninv=i 4\ninv=j 5\ncause=r i 1\ncause=s i 3 j\ncause=r j 2\nend=proposal\x7f\n",
        2,
        9,
        13,
    ),
    Case(b"", 3, 1, 1),
    Case(b"proposal=p", 3, 1, 1),
    Case(b"proposal=p\n", 3, 2, 1),
    Case(b"proposal=p\nterm=not 2\nterm=or 2 4\ninv=i 4\n", 3, 5, 1),
    Case(
        b"proposal=p\nterm=not 2\nterm=or 2 4\ninv=i 4\ninv=j 5\ncause=r i 1\ncause=s i 3 j\ncause=r j 2\n",
        3,
        9,
        1,
    ),
    Case(
        b"proposal=p\nterm=not 2\nterm=or 2 4\ninv=i 4\ninv=j 5\ncause=r i 1\ncause=s i 3 j\ncause=r j 2\nend=proposal",
        3,
        9,
        1,
    ),
    Case(
        b"proposal=p\nterm=not 2\nterm=or 2 4\ninv=i 4\ninv=j 5\ncause=r i 1\ncause=s i 3 j\ncause=r j 2\nend=proposal\nx",
        3,
        10,
        1,
    ),
    Case(
        b"proposal=p\nterm=not 2\nterm=or 2 4\ninv=i 4\ninv=j 5\ncause=r i 1\ncause=s i 3 j\ncause=r j 2\nend=proposal\nend=proposal",
        3,
        10,
        1,
    ),
    Case(b"\n", 4, 1, 1),
    Case(b"term=true\n", 4, 1, 1),
    Case(b"inv=i 2\n", 4, 1, 1),
    Case(b"cause=r i 1\n", 4, 1, 1),
    Case(b"end=proposal\n", 4, 1, 1),
    Case(b"protocol=p\n", 4, 1, 1),
    Case(
        b"proposal=p\ntype=S a b\nterm=not 2\nterm=or 2 4\ninv=i 4\ninv=j 5\ncause=r i 1\ncause=s i 3 j\ncause=r j 2\nend=proposal\n",
        4,
        2,
        1,
    ),
    Case(
        b"proposal=p\nterm=not 2\nterm=or 2 4\ninit=2\ninv=i 4\ninv=j 5\ncause=r i 1\ncause=s i 3 j\ncause=r j 2\nend=proposal\n",
        4,
        4,
        1,
    ),
    Case(
        b"proposal=p\nterm=not 2\nterm=or 2 4\ninv=i 4\ninv=j 5\nrule=r 2\ncause=r i 1\ncause=s i 3 j\ncause=r j 2\nend=proposal\n",
        4,
        6,
        1,
    ),
    Case(
        b"proposal=p\nterm=not 2\nterm=or 2 4\ninv=i 4\ninv=j 5\ncause=r i 1\nset=x 1\ncause=s i 3 j\ncause=r j 2\nend=proposal\n",
        4,
        7,
        1,
    ),
    Case(
        b"proposal=p\nterm=not 2\nterm=or 2 4\ninv=i 4\nterm=true\ninv=j 5\ncause=r i 1\ncause=s i 3 j\ncause=r j 2\nend=proposal\n",
        4,
        5,
        1,
    ),
    Case(
        b"proposal=p\nterm=not 2\nterm=or 2 4\ninv=i 4\ninv=j 5\ncause=r i 1\ninv=k 2\ncause=s i 3 j\ncause=r j 2\nend=proposal\n",
        4,
        7,
        1,
    ),
    Case(
        b"proposal=p\nterm=not 2\nterm=or 2 4\ninv=i 4\ninv=j 5\ncause=r i 1\nterm=foo\ncause=s i 3 j\ncause=r j 2\nend=proposal\n",
        4,
        7,
        1,
    ),
    Case(
        b"proposal=p\nterm=not 2\nproposal=p\nterm=or 2 4\ninv=i 4\ninv=j 5\ncause=r i 1\ncause=s i 3 j\ncause=r j 2\nend=proposal\n",
        4,
        3,
        1,
    ),
    Case(
        b"proposal=p\nterm=not 2\nterm=or 2 4\ninv=i 4\ninv=j 5\nproposal=p\ncause=r i 1\ncause=s i 3 j\ncause=r j 2\nend=proposal\n",
        4,
        6,
        1,
    ),
    Case(
        b"proposal=p\nterm=not 2\nterm=or 2 4\ninv=i 4\ninv=j 5\ncause=r i 1\ncause=s i 3 j\ncause=r j 2\nend=proposal\nend=proposal\n",
        4,
        10,
        1,
    ),
    Case(
        b"proposal=p\nterm=not 2\nterm=or 2 4\ninv=i 4\ninv=j 5\ncause=r i 1\ncause=s i 3 j\ncause=r j 2\nend=proposal\n\n",
        4,
        10,
        1,
    ),
    Case(
        b"proposal=p\nterm=not 2\nterm=or 2 4\ninv=i 4\ninv=j 5\ncause=r i 1\ncause=s i 3 j\ncause=r j 2\nend=proposal\ncause=s j 1\n",
        4,
        10,
        1,
    ),
    Case(
        b"proposal=p\nterm=not 2\nterm=or 2 4\nInv=k 2\ninv=i 4\ninv=j 5\ncause=r i 1\ncause=s i 3 j\ncause=r j 2\nend=proposal\n",
        4,
        4,
        1,
    ),
    Case(
        b"proposal=p\nterm=not 2\nterm=or 2 4\ninv\ninv=i 4\ninv=j 5\ncause=r i 1\ncause=s i 3 j\ncause=r j 2\nend=proposal\n",
        4,
        4,
        1,
    ),
    Case(
        b"proposal=p\nterm=not 2\nterm=or 2 4\n inv=k 2\ninv=i 4\ninv=j 5\ncause=r i 1\ncause=s i 3 j\ncause=r j 2\nend=proposal\n",
        4,
        4,
        1,
    ),
    Case(
        b"proposal=p\nterm=not 2\nterm=or 2 4\ninv=i 4\ninv=r 5\ninv=x 5\ninv=S 5\ninv=j 5\ncause=r i 1\ncause=s i 3 j\ncause=r j 2\nend=proposal\n",
        0,
        0,
        0,
    ),
];

// Words and names.
const WORDS_AND_NAMES: [Case; 34] = [
    Case(
        b"proposal=\nterm=not 2\nterm=or 2 4\ninv=i 4\ninv=j 5\ncause=r i 1\ncause=s i 3 j\ncause=r j 2\nend=proposal\n",
        5,
        1,
        10,
    ),
    Case(
        b"proposal=p q\nterm=not 2\nterm=or 2 4\ninv=i 4\ninv=j 5\ncause=r i 1\ncause=s i 3 j\ncause=r j 2\nend=proposal\n",
        5,
        1,
        12,
    ),
    Case(
        b"proposal=p-\nterm=not 2\nterm=or 2 4\ninv=i 4\ninv=j 5\ncause=r i 1\ncause=s i 3 j\ncause=r j 2\nend=proposal\n",
        5,
        1,
        10,
    ),
    Case(
        b"proposal=p\nterm=not 2\nterm=or 2 4\ninv=i\ninv=j 5\ncause=r i 1\ncause=s i 3 j\ncause=r j 2\nend=proposal\n",
        5,
        4,
        6,
    ),
    Case(
        b"proposal=p\nterm=not 2\nterm=or 2 4\ninv=i 04\ninv=j 5\ncause=r i 1\ncause=s i 3 j\ncause=r j 2\nend=proposal\n",
        5,
        4,
        7,
    ),
    Case(
        b"proposal=p\nterm=not 2\nterm=or 2 4\ninv=i 4 4\ninv=j 5\ncause=r i 1\ncause=s i 3 j\ncause=r j 2\nend=proposal\n",
        5,
        4,
        9,
    ),
    Case(
        b"proposal=p\nterm=not 2\nterm=or 2 4\ninv= i 4\ninv=j 5\ncause=r i 1\ncause=s i 3 j\ncause=r j 2\nend=proposal\n",
        5,
        4,
        5,
    ),
    Case(
        b"proposal=p\nterm=not 2\nterm=or 2 4\ninv=i 4\ninv=j 5\ncause=r i\ncause=s i 3 j\ncause=r j 2\nend=proposal\n",
        5,
        6,
        10,
    ),
    Case(
        b"proposal=p\nterm=not 2\nterm=or 2 4\ninv=i 4\ninv=j 5\ncause=r i 4\ncause=s i 3 j\ncause=r j 2\nend=proposal\n",
        5,
        6,
        11,
    ),
    Case(
        b"proposal=p\nterm=not 2\nterm=or 2 4\ninv=i 4\ninv=j 5\ncause=r i 01\ncause=s i 3 j\ncause=r j 2\nend=proposal\n",
        5,
        6,
        11,
    ),
    Case(
        b"proposal=p\nterm=not 2\nterm=or 2 4\ninv=i 4\ninv=j 5\ncause=r i 1 j\ncause=s i 3 j\ncause=r j 2\nend=proposal\n",
        5,
        6,
        13,
    ),
    Case(
        b"proposal=p\nterm=not 2\nterm=or 2 4\ninv=i 4\ninv=j 5\ncause=r i 1\ncause=s i 3\ncause=r j 2\nend=proposal\n",
        5,
        7,
        12,
    ),
    Case(
        b"proposal=p\nterm=not 2\nterm=or 2 4\ninv=i 4\ninv=j 5\ncause=r i 1\ncause=s i 3 \ncause=r j 2\nend=proposal\n",
        5,
        7,
        13,
    ),
    Case(
        b"proposal=p\nterm=not 2\nterm=or 2 4\ninv=i 4\ninv=j 5\ncause=r i 1\ncause=s i 3 j j\ncause=r j 2\nend=proposal\n",
        5,
        7,
        15,
    ),
    Case(
        b"proposal=p\nterm=not 2\nterm=or 2 4\ninv=i 4\ninv=j 5\ncause=r i 1\ncause=s i 3 j\ncause=r j 2\nend=protocol\n",
        5,
        9,
        5,
    ),
    Case(
        b"proposal=p\nterm=not 2\nterm=or 2 4\ninv=i 4\ninv=j 5\ncause=r i 1\ncause=s i 3 j\ncause=r j 2\nend=proposal \n",
        5,
        9,
        14,
    ),
    Case(
        b"proposal=p\nterm=nor 2 2\nterm=or 2 4\ninv=i 4\ninv=j 5\ncause=r i 1\ncause=s i 3 j\ncause=r j 2\nend=proposal\n",
        5,
        2,
        6,
    ),
    Case(
        b"proposal=p\nterm=not 2\nterm=or 2 4\ninv=i 4\ninv=i 5\ncause=r i 1\ncause=s i 3 j\ncause=r j 2\nend=proposal\n",
        6,
        5,
        5,
    ),
    Case(
        b"proposal=p\nterm=not 2\nterm=or 2 4\ninv=i 4\ninv=i 99\ncause=r i 1\ncause=s i 3 j\ncause=r j 2\nend=proposal\n",
        6,
        5,
        5,
    ),
    Case(
        b"proposal=p\nterm=not 2\nterm=or 2 4\ninv=i 4\ninv=i 0\ncause=r i 1\ncause=s i 3 j\ncause=r j 2\nend=proposal\n",
        6,
        5,
        5,
    ),
    Case(
        b"proposal=p\nterm=not 2\nterm=or 2 4\ninv=i 4\ninv=j 5\ncause=q i 1\ncause=s i 3 j\ncause=r j 2\nend=proposal\n",
        7,
        6,
        7,
    ),
    Case(
        b"proposal=p\nterm=not 2\nterm=or 2 4\ninv=i 4\ninv=j 5\ncause=r k 1\ncause=s i 3 j\ncause=r j 2\nend=proposal\n",
        7,
        6,
        9,
    ),
    Case(
        b"proposal=p\nterm=not 2\nterm=or 2 4\ninv=i 4\ninv=j 5\ncause=q k 1\ncause=s i 3 j\ncause=r j 2\nend=proposal\n",
        7,
        6,
        7,
    ),
    Case(
        b"proposal=p\nterm=not 2\nterm=or 2 4\ninv=i 4\ninv=j 5\ncause=r i 1\ncause=s i 3 k\ncause=r j 2\nend=proposal\n",
        7,
        7,
        13,
    ),
    Case(
        b"proposal=p\nterm=not 2\nterm=or 2 4\ninv=i 4\ninv=j 5\ncause=r i 1\ncause=s k 3 k\ncause=r j 2\nend=proposal\n",
        7,
        7,
        9,
    ),
    Case(
        b"proposal=p\nterm=not 2\nterm=or 2 4\ninv=i 4\ninv=j 5\ncause=r i 1\ncause=q i 3 k\ncause=r j 2\nend=proposal\n",
        7,
        7,
        7,
    ),
    Case(
        b"proposal=p\nterm=not 2\nterm=or 2 4\ninv=i 4\ninv=j 5\ncause=r i 1\ncause=i r 3 j\ncause=r j 2\nend=proposal\n",
        7,
        7,
        7,
    ),
    Case(
        b"proposal=p\nterm=var y\nterm=or 2 4\ninv=i 4\ninv=j 5\ncause=r i 1\ncause=s i 3 j\ncause=r j 2\nend=proposal\n",
        7,
        2,
        10,
    ),
    Case(
        b"proposal=p\nterm=val T a\nterm=or 2 4\ninv=i 4\ninv=j 5\ncause=r i 1\ncause=s i 3 j\ncause=r j 2\nend=proposal\n",
        7,
        2,
        10,
    ),
    Case(
        b"proposal=p\nterm=val S c\nterm=or 2 4\ninv=i 4\ninv=j 5\ncause=r i 1\ncause=s i 3 j\ncause=r j 2\nend=proposal\n",
        7,
        2,
        12,
    ),
    Case(
        b"proposal=p\nterm=val T c\nterm=or 2 4\ninv=i 4\ninv=j 5\ncause=r i 1\ncause=s i 3 j\ncause=r j 2\nend=proposal\n",
        7,
        2,
        10,
    ),
    Case(
        b"proposal=p\nproposal=-\nterm=not 2\nterm=or 2 4\ninv=i 4\ninv=j 5\ncause=r i 1\ncause=s i 3 j\ncause=r j 2\nend=proposal\n",
        5,
        2,
        10,
    ),
    Case(
        b"proposal=p\nterm=not 2\nterm=or 2 4\ninv=i 4\ninv=j 5\ncause=r i 1\ncause=s i 3 j\ncause=r j 2\ncause=r i 3 k\nend=proposal\n",
        7,
        9,
        13,
    ),
    Case(
        b"proposal=p\nterm=not 2\nterm=or 2 4\ninv=i 4\ninv=j 5\ncause=r i 1\ncause=s i 3 j\ncause=q i 2\nend=proposal\n",
        7,
        8,
        7,
    ),
];

// Numbers, sorts, too many lines, another protocol, and causes out of order.
const NUMBERS_AND_ORDER: [Case; 29] = [
    Case(
        b"proposal=p\nterm=not 2\nterm=or 2 4\ninv=i 6\ninv=j 5\ncause=r i 1\ncause=s i 3 j\ncause=r j 2\nend=proposal\n",
        8,
        4,
        7,
    ),
    Case(
        b"proposal=p\nterm=not 2\nterm=or 2 4\ninv=i 999\ninv=j 5\ncause=r i 1\ncause=s i 3 j\ncause=r j 2\nend=proposal\n",
        8,
        4,
        7,
    ),
    Case(
        b"proposal=p\nterm=not 4\nterm=or 2 4\ninv=i 4\ninv=j 5\ncause=r i 1\ncause=s i 3 j\ncause=r j 2\nend=proposal\n",
        8,
        2,
        10,
    ),
    Case(
        b"proposal=p\nterm=not 5\nterm=or 2 4\ninv=i 4\ninv=j 5\ncause=r i 1\ncause=s i 3 j\ncause=r j 2\nend=proposal\n",
        8,
        2,
        10,
    ),
    Case(
        b"proposal=p\nterm=not 2\nterm=or 2 5\ninv=i 4\ninv=j 5\ncause=r i 1\ncause=s i 3 j\ncause=r j 2\nend=proposal\n",
        8,
        3,
        11,
    ),
    Case(
        b"proposal=p\nterm=not 2\nterm=or 0 5\ninv=i 4\ninv=j 5\ncause=r i 1\ncause=s i 3 j\ncause=r j 2\nend=proposal\n",
        8,
        3,
        11,
    ),
    Case(
        b"proposal=p\nterm=not 2\nterm=eq 4 99\ninv=i 4\ninv=j 5\ncause=r i 1\ncause=s i 3 j\ncause=r j 2\nend=proposal\n",
        8,
        3,
        11,
    ),
    Case(
        b"proposal=p\nterm=not 2\nterm=or 9 8\ninv=i 4\ninv=j 5\ncause=r i 1\ncause=s i 3 j\ncause=r j 2\nend=proposal\n",
        8,
        3,
        9,
    ),
    Case(
        b"proposal=p\nterm=not 2\nterm=or 2 4\ninv=i 0\ninv=j 5\ncause=r i 1\ncause=s i 3 j\ncause=r j 2\nend=proposal\n",
        9,
        4,
        7,
    ),
    Case(
        b"proposal=p\nterm=not 2\nterm=or 2 4\ninv=i 1\ninv=j 5\ncause=r i 1\ncause=s i 3 j\ncause=r j 2\nend=proposal\n",
        9,
        4,
        7,
    ),
    Case(
        b"proposal=p\nterm=not 0\nterm=or 2 4\ninv=i 4\ninv=j 5\ncause=r i 1\ncause=s i 3 j\ncause=r j 2\nend=proposal\n",
        9,
        2,
        10,
    ),
    Case(
        b"proposal=p\nterm=not 2\nterm=or 2 0\ninv=i 4\ninv=j 5\ncause=r i 1\ncause=s i 3 j\ncause=r j 2\nend=proposal\n",
        9,
        3,
        11,
    ),
    Case(
        b"proposal=p\nterm=not 2\nterm=eq 2 2\ninv=i 4\ninv=j 5\ncause=r i 1\ncause=s i 3 j\ncause=r j 2\nend=proposal\n",
        9,
        3,
        9,
    ),
    Case(
        b"proposal=p\nterm=not 2\nterm=eq 0 2\ninv=i 4\ninv=j 5\ncause=r i 1\ncause=s i 3 j\ncause=r j 2\nend=proposal\n",
        9,
        3,
        11,
    ),
    Case(
        b"proposal=p\nterm=not 2\nterm=ite 0 0 1\ninv=i 4\ninv=j 5\ncause=r i 1\ncause=s i 3 j\ncause=r j 2\nend=proposal\n",
        9,
        3,
        10,
    ),
    Case(
        b"proposal=p\nterm=not 2\nterm=ite 2 2 1\ninv=i 4\ninv=j 5\ncause=r i 1\ncause=s i 3 j\ncause=r j 2\nend=proposal\n",
        9,
        3,
        12,
    ),
    Case(
        b"proposal=p\nterm=not 2\nterm=ite 2 0 3\ninv=i 4\ninv=j 5\ncause=r i 1\ncause=s i 3 j\ncause=r j 2\nend=proposal\n",
        9,
        3,
        14,
    ),
    Case(
        b"proposal=p\nproposal=p\nterm=not 2\nterm=or 2 4\ninv=i 4\ninv=j 5\ncause=r i 1\ncause=s i 3 j\ncause=r j 2\nend=proposal\n",
        10,
        2,
        1,
    ),
    Case(
        b"proposal=p\nproposal=q\nterm=not 2\nterm=or 2 4\ninv=i 4\ninv=j 5\ncause=r i 1\ncause=s i 3 j\ncause=r j 2\nend=proposal\n",
        10,
        2,
        1,
    ),
    Case(
        b"proposal=q\nterm=not 2\nterm=or 2 4\ninv=i 4\ninv=j 5\ncause=r i 1\ncause=s i 3 j\ncause=r j 2\nend=proposal\n",
        13,
        1,
        10,
    ),
    Case(
        b"proposal=P\nterm=not 2\nterm=or 2 4\ninv=i 4\ninv=j 5\ncause=r i 1\ncause=s i 3 j\ncause=r j 2\nend=proposal\n",
        13,
        1,
        10,
    ),
    Case(
        b"proposal=pp\nterm=not 2\nterm=or 2 4\ninv=i 4\ninv=j 5\ncause=r i 1\ncause=s i 3 j\ncause=r j 2\nend=proposal\n",
        13,
        1,
        10,
    ),
    Case(
        b"proposal=p.\nterm=not 2\nterm=or 2 4\ninv=i 4\ninv=j 5\ncause=r i 1\ncause=s i 3 j\ncause=r j 2\nend=proposal\n",
        13,
        1,
        10,
    ),
    Case(
        b"proposal=p\nterm=not 2\nterm=or 2 4\ninv=i 4\ninv=j 5\ncause=r i 1\ncause=r i 3 j\ncause=r j 2\nend=proposal\n",
        14,
        7,
        1,
    ),
    Case(
        b"proposal=p\nterm=not 2\nterm=or 2 4\ninv=i 4\ninv=j 5\ncause=r i 1\ncause=s i 3 j\ncause=s i 2\nend=proposal\n",
        14,
        8,
        1,
    ),
    Case(
        b"proposal=p\nterm=not 2\nterm=or 2 4\ninv=i 4\ninv=j 5\ncause=r i 1\ncause=s i 3 j\ncause=r i 2\nend=proposal\n",
        14,
        8,
        1,
    ),
    Case(
        b"proposal=p\nterm=not 2\nterm=or 2 4\ninv=i 4\ninv=j 5\ncause=r i 1\ncause=s i 3 j\ncause=r j 2\ncause=s i 1\nend=proposal\n",
        14,
        9,
        1,
    ),
    Case(
        b"proposal=p\nterm=not 2\nterm=or 2 4\ninv=i 4\ninv=j 5\ncause=r i 1\ncause=s i 3 j\ncause=r j 2\ncause=r j 1\nend=proposal\n",
        14,
        9,
        1,
    ),
    Case(
        b"proposal=p\nterm=not 2\nterm=or 2 4\ninv=i 4\ninv=j 5\ncause=r i 1\ncause=s i 3 j\ncause=r j 2\ncause=s j 1\ncause=r j 3 j\nend=proposal\n",
        14,
        10,
        1,
    ),
];

// One hundred names of one and two letters: enough for as many rules or invariants as may stand, and one more.
const LETTERS: &[u8] = b"abcdefghijklmnopqrstuvwxyzABCDEFGHIJKLMNOPQRSTUVWXYZ0123456789_.[]";

fn protocol(rt: &impl Abort, heap: Global, bytes: &[u8]) -> Protocol {
    let mut protocol = Protocol::empty(heap);
    assert!(rt; whole_file::read(heap, bytes, &mut protocol).is_ok());
    protocol
}

fn refusal(heap: Global, protocol: &Protocol, bytes: &[u8]) -> (u8, usize, usize) {
    let mut proposal = Proposal::empty(heap);
    told(read(heap, protocol, bytes, &mut proposal))
}

// A loop of its own: a closure that holds a borrow of the protocol gets no proof at `run`.
fn run(rt: &impl Abort, heap: Global, cases: &[Case]) {
    let protocol = protocol(rt, heap, PROTOCOL);
    for Case(bytes, number, line, column) in cases {
        assert_eq!(rt; refusal(heap, &protocol, *bytes), (*number, *line, *column));
    }
}

#[test]
fn bytes_and_keys(rt: HostRuntime) {
    run(&rt, rt.alloc(), &BYTES_AND_KEYS);
}

#[test]
fn words_and_names(rt: HostRuntime) {
    run(&rt, rt.alloc(), &WORDS_AND_NAMES);
}

#[test]
fn numbers_and_order(rt: HostRuntime) {
    run(&rt, rt.alloc(), &NUMBERS_AND_ORDER);
}

// With no protocol every name is another protocol's.
#[test]
fn with_the_empty_protocol(rt: HostRuntime) {
    let heap = rt.alloc();
    let protocol = Protocol::empty(heap);
    assert_eq!(rt;
        refusal(heap, &protocol, b"proposal=p\nend=proposal\n"),
        (13, 1, 10)
    );
}

// The terms count on from the protocol's four: 508 more are allowed.
#[test]
fn many_terms(rt: HostRuntime) -> Result<(), Fail> {
    let heap = rt.alloc();
    let protocol = protocol(&rt, heap, PROTOCOL);
    let terms = repeated(heap, b"term=true\n", 508, b"")?;
    let mut most = repeated(heap, b"proposal=p\n", 1, terms.as_slice())?;
    let mut more = most.clone()?;
    most.extend_from_slice(b"inv=i 511\nend=proposal\n")?;
    assert_eq!(rt; refusal(heap, &protocol, &most), (0, 0, 0));
    more.extend_from_slice(b"term=true\ninv=i 2\nend=proposal\n")?;
    assert_eq!(rt; refusal(heap, &protocol, &more), (10, 510, 1));
    Ok(())
}

// A line for each of the first `count` letters: `front`, the letter, `back`.
fn lettered(
    heap: Global,
    text: &mut Vec<u8>,
    front: &[u8],
    back: &[u8],
    count: usize,
) -> Result<(), AllocError> {
    for letter in LETTERS.iter().take(count) {
        text.extend_from_slice(front)?;
        text.push(*letter)?;
        text.extend_from_slice(back)?;
    }
    Ok(())
}

// The protocol with 64 rules, and a proposal with so many invariants and all claims for the first 64.
fn with_many_rules(rt: &impl Abort, heap: Global) -> Result<Protocol, Fail> {
    let mut text = repeated(
        heap,
        b"protocol=p\ntype=S a b\nvar=x S\nterm=true\ninit=0\n",
        1,
        b"",
    )?;
    lettered(heap, &mut text, b"rule=", b" 0\n", 64)?;
    text.extend_from_slice(b"end=protocol\n")?;
    Ok(protocol(rt, heap, &text))
}

#[test]
fn many_invariants(rt: HostRuntime) -> Result<(), Fail> {
    let heap = rt.alloc();
    let protocol = protocol(&rt, heap, PROTOCOL);
    let mut most = repeated(heap, b"proposal=p\n", 1, b"")?;
    lettered(heap, &mut most, b"inv=", b" 2\n", 64)?;
    let mut more = most.clone()?;
    let mut used = most.clone()?;
    most.extend_from_slice(b"end=proposal\n")?;
    assert_eq!(rt; refusal(heap, &protocol, &most), (0, 0, 0));
    more.extend_from_slice(b"inv=aa 2\nend=proposal\n")?;
    assert_eq!(rt; refusal(heap, &protocol, &more), (10, 66, 1));
    used.extend_from_slice(b"inv=a 2\n")?;
    assert_eq!(rt; refusal(heap, &protocol, &used), (6, 66, 5));
    Ok(())
}

// 64 rules and 64 invariants have 4,096 pairs. One claim more is too many before it is out of order, but an unknown name
// comes first.
#[test]
fn many_claims(rt: HostRuntime) -> Result<(), Fail> {
    let heap = rt.alloc();
    let protocol = with_many_rules(&rt, heap)?;
    let mut most = repeated(heap, b"proposal=p\n", 1, b"")?;
    lettered(heap, &mut most, b"inv=", b" 0\n", 64)?;
    for invariant in LETTERS.iter().take(64) {
        let back = [b' ', *invariant, b' ', b'1', b'\n'];
        lettered(heap, &mut most, b"cause=", &back, 64)?;
    }
    let mut more = most.clone()?;
    let mut unknown = most.clone()?;
    most.extend_from_slice(b"end=proposal\n")?;
    assert_eq!(rt; refusal(heap, &protocol, &most), (0, 0, 0));
    more.extend_from_slice(b"cause=a a 1\n")?;
    assert_eq!(rt; refusal(heap, &protocol, &more), (10, 4162, 1));
    unknown.extend_from_slice(b"cause=a q q\n")?;
    assert_eq!(rt; refusal(heap, &protocol, &unknown), (5, 4162, 11));
    Ok(())
}

#[test]
fn long_files(rt: HostRuntime) -> Result<(), Fail> {
    let heap = rt.alloc();
    let protocol = protocol(&rt, heap, PROTOCOL);
    let most = repeated(heap, b"\0", 65536, b"")?;
    assert_eq!(rt; refusal(heap, &protocol, &most), (2, 1, 1));
    let more = repeated(heap, b"\0", 65537, b"")?;
    assert_eq!(rt; refusal(heap, &protocol, &more), (1, 0, 0));
    let long = repeated(heap, b"x", 256, b"\n")?;
    assert_eq!(rt; refusal(heap, &protocol, &long), (2, 1, 256));
    Ok(())
}

// What a proposal says, part by part; a refused one leaves the place empty.
#[test]
fn parts_of_a_proposal(rt: HostRuntime) {
    let heap = rt.alloc();
    let protocol = protocol(&rt, heap, PROTOCOL);
    let text =
        b"proposal=p\nterm=not 2\ninv=i 4\ninv=j 2\ncause=r i 1\ncause=s i 3 j\ncause=r j 2\nend=proposal\n";
    let mut proposal = Proposal::empty(heap);
    assert!(rt; read(heap, &protocol, text, &mut proposal).is_ok());
    assert_eq!(rt; proposal.name(), b"p".as_slice());
    assert_eq!(rt; proposal.terms().terms.len(), 1);
    assert_eq!(rt; proposal.invariants().len(), 2);
    assert!(rt; proposal.claims().len() == 3);
    let claim = proposal.claims()[1];
    assert_eq!(rt; (claim.rule, claim.invariant, claim.line), (1, 0, 6));
    assert_eq!(rt; (claim.cause.number(), claim.cause.partner()), (3, Some(1)));
    assert!(rt; read(heap, &protocol, b"proposal=p\n", &mut proposal).is_err());
    assert_eq!(rt; proposal.name().len(), 0);
    assert_eq!(rt; proposal.claims().len(), 0);
}
