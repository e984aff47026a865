// Protocol files.
use crate::common::{BYTES, Case, KEYS, LONG_LINES, protocol_refusal, repeated, run};
use protocol::record::Protocol;
use protocol::whole_file::read;
use std::alloc::Global;
use std::test::Fail;

// A smallest protocol, and what may not follow it.
const SMALLEST: &[u8] = b"protocol=a\ntype=S a b\nvar=x S\nterm=true\ninit=0\nend=protocol\n";

const BEHIND: [Case; 7] = [
    Case(b"", 0, 0, 0),
    Case(b"x", 3, 7, 1),
    Case(b"end=protocol", 3, 7, 1),
    Case(b"\x01", 2, 7, 1),
    Case(b"\n", 4, 7, 1),
    Case(b"end=protocol\n", 4, 7, 1),
    Case(b"term=foo\n", 4, 7, 1),
];

// Whole protocol files, each a change of the first: what lines say of each other.
const FILES: [Case; 67] = [
    Case(
        b"protocol=p\ntype=S a b\nvar=x S\nterm=var x\nterm=val S a\nterm=eq 0 1\ninit=2\nrule=r 2\nset=x 1\nend=protocol\n",
        0,
        0,
        0,
    ),
    Case(
        b"type=S a b\ntype=S a b\nvar=x S\nterm=var x\nterm=val S a\nterm=eq 0 1\ninit=2\nrule=r 2\nset=x 1\nend=protocol\n",
        4,
        1,
        1,
    ),
    Case(
        b"protocol=p\nvar=x S\nvar=x S\nterm=var x\nterm=val S a\nterm=eq 0 1\ninit=2\nrule=r 2\nset=x 1\nend=protocol\n",
        4,
        2,
        1,
    ),
    Case(
        b"protocol=p\ntype=S a b\nterm=true\nterm=var x\nterm=val S a\nterm=eq 0 1\ninit=2\nrule=r 2\nset=x 1\nend=protocol\n",
        4,
        3,
        1,
    ),
    Case(
        b"protocol=p\ntype=S a b\nvar=x S\nterm=var x\nterm=val S a\nterm=eq 0 1\nrule=r 2\nrule=r 2\nset=x 1\nend=protocol\n",
        4,
        7,
        1,
    ),
    Case(
        b"protocol=p\ntype=S a b\nvar=x S\nterm=var x\nterm=val S a\nterm=eq 0 1\nend=protocol\n",
        4,
        7,
        1,
    ),
    Case(
        b"protocol=p\ntype=S a b\nvar=x S\nterm=var x\nterm=val S a\nterm=eq 0 1\ninit=2\nterm=true\nrule=r 2\nset=x 1\nend=protocol\n",
        4,
        8,
        1,
    ),
    Case(
        b"protocol=p\ntype=S a b\nvar=x S\nterm=var x\nterm=val S a\nterm=eq 0 1\ninit=2\nrule=r 2\ninit=2\nset=x 1\nend=protocol\n",
        4,
        9,
        1,
    ),
    Case(
        b"protocol=p\ntype=S a b\nvar=x S\nterm=var x\nterm=val S a\nterm=eq 0 1\ninit=2\nset=x 1\nend=protocol\n",
        4,
        8,
        1,
    ),
    Case(
        b"protocol=p\ntype=S a b\nvar=x S\nterm=var x\nterm=val S a\nterm=eq 0 1\ninit=2\nend=protocol\n",
        0,
        0,
        0,
    ),
    Case(
        b"protocol=p\ntype=S a b\nvar=x S\nterm=var x\nterm=val S a\nterm=eq 0 1\ninit=2\nrule=r 2\nset=x 1\nend=protocol\nend=protocol\n",
        4,
        11,
        1,
    ),
    Case(
        b"protocol=p\ntype=S a b\nvar=x S\nterm=var x\nterm=val S a\nterm=eq 0 1\ninit=2\nrule=r 2\nset=x 1\n",
        3,
        10,
        1,
    ),
    Case(
        b"protocol=p\nvar=x S\nterm=var x\nterm=val S a\nterm=eq 0 1\ninit=2\nrule=r 2\nset=x 1\nend=protocol\n",
        4,
        2,
        1,
    ),
    Case(
        b"protocol=p\ntype=S a b\ntype=S c d\nvar=x S\nterm=var x\nterm=val S a\nterm=eq 0 1\ninit=2\nrule=r 2\nset=x 1\nend=protocol\n",
        6,
        3,
        6,
    ),
    Case(
        b"protocol=p\ntype=S a a\nvar=x S\nterm=var x\nterm=val S a\nterm=eq 0 1\ninit=2\nrule=r 2\nset=x 1\nend=protocol\n",
        6,
        2,
        10,
    ),
    Case(
        b"protocol=p\ntype=S a b\ntype=T a b\nvar=x S\nterm=var x\nterm=val S a\nterm=eq 0 1\ninit=2\nrule=r 2\nset=x 1\nend=protocol\n",
        0,
        0,
        0,
    ),
    Case(
        b"protocol=p\ntype=S a b\nvar=x S\nvar=x S\nterm=var x\nterm=val S a\nterm=eq 0 1\ninit=2\nrule=r 2\nset=x 1\nend=protocol\n",
        6,
        4,
        5,
    ),
    Case(
        b"protocol=p\ntype=S a b\nvar=x S\nterm=var x\nterm=val S a\nterm=eq 0 1\ninit=2\nrule=r 2\nset=x 1\nrule=r 2\nend=protocol\n",
        6,
        10,
        6,
    ),
    Case(
        b"protocol=p\ntype=S a b c b\nvar=x S\nterm=var x\nterm=val S a\nterm=eq 0 1\ninit=2\nrule=r 2\nset=x 1\nend=protocol\n",
        6,
        2,
        14,
    ),
    Case(
        b"protocol=p\ntype=S a b\nvar=x S\nterm=var x\nterm=val S a\nterm=eq 0 1\ninit=2\nrule=r 2\nset=x 1\nrule=s 2\nend=protocol\n",
        0,
        0,
        0,
    ),
    Case(
        b"protocol=p\ntype=S a b\nvar=x T\nterm=var x\nterm=val S a\nterm=eq 0 1\ninit=2\nrule=r 2\nset=x 1\nend=protocol\n",
        7,
        3,
        7,
    ),
    Case(
        b"protocol=p\ntype=S a b\nvar=x S\nterm=var y\nterm=val S a\nterm=eq 0 1\ninit=2\nrule=r 2\nset=x 1\nend=protocol\n",
        7,
        4,
        10,
    ),
    Case(
        b"protocol=p\ntype=S a b\nvar=x S\nterm=var x\nterm=val T a\nterm=eq 0 1\ninit=2\nrule=r 2\nset=x 1\nend=protocol\n",
        7,
        5,
        10,
    ),
    Case(
        b"protocol=p\ntype=S a b\nvar=x S\nterm=var x\nterm=val S c\nterm=eq 0 1\ninit=2\nrule=r 2\nset=x 1\nend=protocol\n",
        7,
        5,
        12,
    ),
    Case(
        b"protocol=p\ntype=S a b\nvar=x S\nterm=var x\nterm=val S a\nterm=eq 0 1\ninit=2\nrule=r 2\nset=y 1\nend=protocol\n",
        7,
        9,
        5,
    ),
    Case(
        b"protocol=p\ntype=S a b\nvar=x S\nterm=var x\nterm=val T c\nterm=eq 0 1\ninit=2\nrule=r 2\nset=x 1\nend=protocol\n",
        7,
        5,
        10,
    ),
    Case(
        b"protocol=p\ntype=S a b\nvar=x S\nterm=var x\nterm=val S a\nterm=eq 0 2\ninit=2\nrule=r 2\nset=x 1\nend=protocol\n",
        8,
        6,
        11,
    ),
    Case(
        b"protocol=p\ntype=S a b\nvar=x S\nterm=var x\nterm=val S a\nterm=eq 9 9\ninit=2\nrule=r 2\nset=x 1\nend=protocol\n",
        8,
        6,
        9,
    ),
    Case(
        b"protocol=p\ntype=S a b\nvar=x S\nterm=var x\nterm=val S a\nterm=eq 0 1\ninit=3\nrule=r 2\nset=x 1\nend=protocol\n",
        8,
        7,
        6,
    ),
    Case(
        b"protocol=p\ntype=S a b\nvar=x S\nterm=var x\nterm=val S a\nterm=eq 0 1\ninit=2\nrule=r 3\nset=x 1\nend=protocol\n",
        8,
        8,
        8,
    ),
    Case(
        b"protocol=p\ntype=S a b\nvar=x S\nterm=var x\nterm=val S a\nterm=eq 0 1\ninit=2\nrule=r 2\nset=x 3\nend=protocol\n",
        8,
        9,
        7,
    ),
    Case(
        b"protocol=p\ntype=S a b\nvar=x S\nterm=var x\nterm=val S a\nterm=not 2\ninit=2\nrule=r 2\nset=x 1\nend=protocol\n",
        8,
        6,
        10,
    ),
    Case(
        b"protocol=p\ntype=S a b\nvar=x S\nterm=var x\nterm=val S a\nterm=eq 0 1\nterm=eq 2 99\ninit=2\nrule=r 2\nset=x 1\nend=protocol\n",
        8,
        7,
        11,
    ),
    Case(
        b"protocol=p\ntype=S a b\nvar=x S\nterm=var x\nterm=val S a\nterm=eq 0 1\nterm=eq 2 0\ninit=2\nrule=r 2\nset=x 1\nend=protocol\n",
        9,
        7,
        9,
    ),
    Case(
        b"protocol=p\ntype=S a b\nvar=x S\nterm=var x\nterm=val S a\nterm=eq 0 1\nterm=eq 0 2\ninit=2\nrule=r 2\nset=x 1\nend=protocol\n",
        9,
        7,
        11,
    ),
    Case(
        b"protocol=p\ntype=S a b\nvar=x S\nterm=var x\nterm=val S a\nterm=eq 0 1\nterm=and 2 0\ninit=2\nrule=r 2\nset=x 1\nend=protocol\n",
        9,
        7,
        12,
    ),
    Case(
        b"protocol=p\ntype=S a b\nvar=x S\nterm=var x\nterm=val S a\nterm=eq 0 1\nterm=not 0\ninit=2\nrule=r 2\nset=x 1\nend=protocol\n",
        9,
        7,
        10,
    ),
    Case(
        b"protocol=p\ntype=S a b\nvar=x S\nterm=var x\nterm=val S a\nterm=eq 0 1\ninit=0\nrule=r 2\nset=x 1\nend=protocol\n",
        9,
        7,
        6,
    ),
    Case(
        b"protocol=p\ntype=S a b\nvar=x S\nterm=var x\nterm=val S a\nterm=eq 0 1\ninit=2\nrule=r 1\nset=x 1\nend=protocol\n",
        9,
        8,
        8,
    ),
    Case(
        b"protocol=p\ntype=S a b\nvar=x S\nterm=var x\nterm=val S a\nterm=eq 0 1\ninit=2\nrule=r 2\nset=x 2\nend=protocol\n",
        9,
        9,
        7,
    ),
    Case(
        b"protocol=p\ntype=S a b\nvar=x S\nterm=var x\nterm=val S a\nterm=eq 0 1\nterm=ite 0 0 1\ninit=2\nrule=r 2\nset=x 1\nend=protocol\n",
        9,
        7,
        10,
    ),
    Case(
        b"protocol=p\ntype=S a b\nvar=x S\nterm=var x\nterm=val S a\nterm=eq 0 1\nterm=ite 2 2 1\ninit=2\nrule=r 2\nset=x 1\nend=protocol\n",
        9,
        7,
        12,
    ),
    Case(
        b"protocol=p\ntype=S a b\nvar=x S\nterm=var x\nterm=val S a\nterm=eq 0 1\nterm=ite 2 0 2\ninit=2\nrule=r 2\nset=x 1\nend=protocol\n",
        9,
        7,
        14,
    ),
    Case(
        b"protocol=p\ntype=S a b\nvar=x S\nterm=var x\nterm=val S a\nterm=eq 0 1\nterm=ite 2 0 1\ninit=2\nrule=r 2\nset=x 1\nend=protocol\n",
        0,
        0,
        0,
    ),
    Case(
        b"protocol=p\ntype=S a b\nvar=x S\nterm=var x\nterm=val S a\nterm=eq 0 1\nterm=imp 0 2\ninit=2\nrule=r 2\nset=x 1\nend=protocol\n",
        9,
        7,
        10,
    ),
    Case(
        b"protocol=p\ntype=S a b\nvar=x S\nterm=var x\nterm=val S a\nterm=eq 0 1\nterm=or 2 1\ninit=2\nrule=r 2\nset=x 1\nend=protocol\n",
        9,
        7,
        11,
    ),
    Case(
        b"protocol=p\ntype=S a b\ntype=T a b\nvar=x S\nvar=y T\nterm=var x\nterm=var y\nterm=eq 0 1\ninit=2\nend=protocol\n",
        9,
        8,
        11,
    ),
    Case(
        b"protocol=p\nprotocol=q\ntype=S a b\nvar=x S\nterm=var x\nterm=val S a\nterm=eq 0 1\ninit=2\nrule=r 2\nset=x 1\nend=protocol\n",
        10,
        2,
        1,
    ),
    Case(
        b"protocol=p\ntype=S a b\ntype=A a b\ntype=B a b\ntype=C a b\ntype=D a b\ntype=E a b\ntype=F a b\ntype=G a b\nvar=x S\nterm=var x\nterm=val S a\nterm=eq 0 1\ninit=2\nrule=r 2\nset=x 1\nend=protocol\n",
        0,
        0,
        0,
    ),
    Case(
        b"protocol=p\ntype=S a b\ntype=A a b\ntype=B a b\ntype=C a b\ntype=D a b\ntype=E a b\ntype=F a b\ntype=G a b\ntype=H a b\nvar=x S\nterm=var x\nterm=val S a\nterm=eq 0 1\ninit=2\nrule=r 2\nset=x 1\nend=protocol\n",
        10,
        10,
        1,
    ),
    Case(
        b"protocol=p\ntype=S a b\ntype=A a b\ntype=B a b\ntype=C a b\ntype=D a b\ntype=E a b\ntype=F a b\ntype=G a b\ntype=S a b\nvar=x S\nterm=var x\nterm=val S a\nterm=eq 0 1\ninit=2\nrule=r 2\nset=x 1\nend=protocol\n",
        6,
        10,
        6,
    ),
    Case(
        b"protocol=p\ntype=S a b\ntype=T a b c d e f g h i j k l m n o p\nvar=x S\nterm=var x\nterm=val S a\nterm=eq 0 1\ninit=2\nrule=r 2\nset=x 1\nend=protocol\n",
        0,
        0,
        0,
    ),
    Case(
        b"protocol=p\ntype=S a b\ntype=T a b c d e f g h i j k l m n o p q\nvar=x S\nterm=var x\nterm=val S a\nterm=eq 0 1\ninit=2\nrule=r 2\nset=x 1\nend=protocol\n",
        10,
        3,
        1,
    ),
    Case(
        b"protocol=p\ntype=S a b\ntype=T a b c d e f g h i j k l m n o p a\nvar=x S\nterm=var x\nterm=val S a\nterm=eq 0 1\ninit=2\nrule=r 2\nset=x 1\nend=protocol\n",
        6,
        3,
        40,
    ),
    Case(
        b"protocol=p\ntype=S a b\ntype=T a b c d e f g h i j k l m n o p -\nvar=x S\nterm=var x\nterm=val S a\nterm=eq 0 1\ninit=2\nrule=r 2\nset=x 1\nend=protocol\n",
        5,
        3,
        40,
    ),
    Case(
        b"protocol=p\ntype=S a b\nvar=x S\nterm=var x\nterm=val S a\nterm=eq 0 1\ninit=2\ninit=2\ninit=2\ninit=2\ninit=2\ninit=2\ninit=2\ninit=2\nrule=r 2\nset=x 1\nend=protocol\n",
        0,
        0,
        0,
    ),
    Case(
        b"protocol=p\ntype=S a b\nvar=x S\nterm=var x\nterm=val S a\nterm=eq 0 1\ninit=2\ninit=2\ninit=2\ninit=2\ninit=2\ninit=2\ninit=2\ninit=2\ninit=2\nrule=r 2\nset=x 1\nend=protocol\n",
        10,
        15,
        1,
    ),
    Case(
        b"protocol=p\ntype=S a b\nvar=x S\nterm=var x\nterm=val S a\nterm=eq 0 1\ninit=2\nrule=r 2\nset=x 1\nset=x 1\nend=protocol\n",
        12,
        10,
        5,
    ),
    Case(
        b"protocol=p\ntype=S a b\nvar=x S\nterm=var x\nterm=val S a\nterm=eq 0 1\ninit=2\nrule=r 2\nset=x 1\nset=x 9\nend=protocol\n",
        8,
        10,
        7,
    ),
    Case(
        b"protocol=p\ntype=S a b\nvar=x S\nterm=var x\nterm=val S a\nterm=eq 0 1\ninit=2\nrule=r 2\nset=x 1\nrule=s 2\nset=x 1\nend=protocol\n",
        0,
        0,
        0,
    ),
    Case(
        b"protocol=p\ntype=S a b\nvar=x S\nterm=var x\nterm=val S a\nterm=eq 0 1\ninit=2\nrule=r 2\nset=x 1\nset=x 2\nend=protocol\n",
        9,
        10,
        7,
    ),
    Case(
        b"protocol=p\ntype=S a b\nvar=x- T\nterm=var x\nterm=val S a\nterm=eq 0 1\ninit=2\nrule=r 2\nset=x 1\nend=protocol\n",
        5,
        3,
        5,
    ),
    Case(
        b"protocol=p\ntype=S a b\nvar=x S\nvar=x T\nterm=var x\nterm=val S a\nterm=eq 0 1\ninit=2\nrule=r 2\nset=x 1\nend=protocol\n",
        6,
        4,
        5,
    ),
    Case(
        b"protocol=p\ntype=S a b\nvar=x S\nterm=var x\nterm=val S a\nterm=eq 0 1\ninit=2\nrule=r 2\nset=y 9\nend=protocol\n",
        7,
        9,
        5,
    ),
    Case(
        b"protocol=p\ntype=S a b\nvar=x S\nterm=var x\nterm=val S a\nterm=eq 0 1\ninit=2\nrule=r 2\nset=x 1\nrule=r 9\nend=protocol\n",
        6,
        10,
        6,
    ),
    Case(
        b"protocol=p\ntype=S a b\nvar=x S\nterm=var x\nterm=val S a\nterm=eq 0 1\nterm=eq 2 07\ninit=2\nrule=r 2\nset=x 1\nend=protocol\n",
        5,
        7,
        11,
    ),
    Case(
        b"protocol=p\ntype=S a b\nvar=x S\nterm=var x\nterm=val T c d\nterm=eq 0 1\ninit=2\nrule=r 2\nset=x 1\nend=protocol\n",
        5,
        5,
        14,
    ),
];

// Files with as many lines as may stand, and with one more.
const MANY: [Case; 11] = [
    // 32 variables
    Case(
        b"protocol=p\ntype=S a b\nvar=x S\nvar=v0 S\nvar=v1 S\nvar=v2 S\nvar=v3 S\nvar=v4 S\nvar=v5 S\nvar=v6 S\nvar=v7 S\nvar=v8 S\nvar=v9 S\nvar=v10 S\nvar=v11 S\nvar=v12 S\nvar=v13 S\nvar=v14 S\nvar=v15 S\nvar=v16 S\nvar=v17 S\nvar=v18 S\nvar=v19 S\nvar=v20 S\nvar=v21 S\nvar=v22 S\nvar=v23 S\nvar=v24 S\nvar=v25 S\nvar=v26 S\nvar=v27 S\nvar=v28 S\nvar=v29 S\nvar=v30 S\nterm=var x\nterm=val S a\nterm=eq 0 1\ninit=2\nrule=r 2\nset=x 1\nend=protocol\n",
        0,
        0,
        0,
    ),
    // 33
    Case(
        b"protocol=p\ntype=S a b\nvar=x S\nvar=v0 S\nvar=v1 S\nvar=v2 S\nvar=v3 S\nvar=v4 S\nvar=v5 S\nvar=v6 S\nvar=v7 S\nvar=v8 S\nvar=v9 S\nvar=v10 S\nvar=v11 S\nvar=v12 S\nvar=v13 S\nvar=v14 S\nvar=v15 S\nvar=v16 S\nvar=v17 S\nvar=v18 S\nvar=v19 S\nvar=v20 S\nvar=v21 S\nvar=v22 S\nvar=v23 S\nvar=v24 S\nvar=v25 S\nvar=v26 S\nvar=v27 S\nvar=v28 S\nvar=v29 S\nvar=v30 S\nvar=w S\nterm=var x\nterm=val S a\nterm=eq 0 1\ninit=2\nrule=r 2\nset=x 1\nend=protocol\n",
        10,
        35,
        1,
    ),
    // ten
    Case(
        b"protocol=p\ntype=S a b c d e f g h i j k l m n o p\nvar=v0 S\nvar=v1 S\nvar=v2 S\nvar=v3 S\nvar=v4 S\nvar=v5 S\nvar=v6 S\nvar=v7 S\nvar=v8 S\nvar=v9 S\nterm=true\ninit=0\nend=protocol\n",
        0,
        0,
        0,
    ),
    // eleven
    Case(
        b"protocol=p\ntype=S a b c d e f g h i j k l m n o p\nvar=v0 S\nvar=v1 S\nvar=v2 S\nvar=v3 S\nvar=v4 S\nvar=v5 S\nvar=v6 S\nvar=v7 S\nvar=v8 S\nvar=v9 S\nvar=w S\nterm=true\ninit=0\nend=protocol\n",
        11,
        13,
        1,
    ),
    // eleven, unknown
    Case(
        b"protocol=p\ntype=S a b c d e f g h i j k l m n o p\nvar=v0 S\nvar=v1 S\nvar=v2 S\nvar=v3 S\nvar=v4 S\nvar=v5 S\nvar=v6 S\nvar=v7 S\nvar=v8 S\nvar=v9 S\nvar=w T\nterm=true\ninit=0\nend=protocol\n",
        7,
        13,
        7,
    ),
    // 64 rules
    Case(
        b"protocol=p\ntype=S a b\nvar=x S\nterm=var x\nterm=val S a\nterm=eq 0 1\ninit=2\nrule=r 2\nset=x 1\nrule=r0 2\nrule=r1 2\nrule=r2 2\nrule=r3 2\nrule=r4 2\nrule=r5 2\nrule=r6 2\nrule=r7 2\nrule=r8 2\nrule=r9 2\nrule=r10 2\nrule=r11 2\nrule=r12 2\nrule=r13 2\nrule=r14 2\nrule=r15 2\nrule=r16 2\nrule=r17 2\nrule=r18 2\nrule=r19 2\nrule=r20 2\nrule=r21 2\nrule=r22 2\nrule=r23 2\nrule=r24 2\nrule=r25 2\nrule=r26 2\nrule=r27 2\nrule=r28 2\nrule=r29 2\nrule=r30 2\nrule=r31 2\nrule=r32 2\nrule=r33 2\nrule=r34 2\nrule=r35 2\nrule=r36 2\nrule=r37 2\nrule=r38 2\nrule=r39 2\nrule=r40 2\nrule=r41 2\nrule=r42 2\nrule=r43 2\nrule=r44 2\nrule=r45 2\nrule=r46 2\nrule=r47 2\nrule=r48 2\nrule=r49 2\nrule=r50 2\nrule=r51 2\nrule=r52 2\nrule=r53 2\nrule=r54 2\nrule=r55 2\nrule=r56 2\nrule=r57 2\nrule=r58 2\nrule=r59 2\nrule=r60 2\nrule=r61 2\nrule=r62 2\nend=protocol\n",
        0,
        0,
        0,
    ),
    // 65 rules
    Case(
        b"protocol=p\ntype=S a b\nvar=x S\nterm=var x\nterm=val S a\nterm=eq 0 1\ninit=2\nrule=r 2\nset=x 1\nrule=r0 2\nrule=r1 2\nrule=r2 2\nrule=r3 2\nrule=r4 2\nrule=r5 2\nrule=r6 2\nrule=r7 2\nrule=r8 2\nrule=r9 2\nrule=r10 2\nrule=r11 2\nrule=r12 2\nrule=r13 2\nrule=r14 2\nrule=r15 2\nrule=r16 2\nrule=r17 2\nrule=r18 2\nrule=r19 2\nrule=r20 2\nrule=r21 2\nrule=r22 2\nrule=r23 2\nrule=r24 2\nrule=r25 2\nrule=r26 2\nrule=r27 2\nrule=r28 2\nrule=r29 2\nrule=r30 2\nrule=r31 2\nrule=r32 2\nrule=r33 2\nrule=r34 2\nrule=r35 2\nrule=r36 2\nrule=r37 2\nrule=r38 2\nrule=r39 2\nrule=r40 2\nrule=r41 2\nrule=r42 2\nrule=r43 2\nrule=r44 2\nrule=r45 2\nrule=r46 2\nrule=r47 2\nrule=r48 2\nrule=r49 2\nrule=r50 2\nrule=r51 2\nrule=r52 2\nrule=r53 2\nrule=r54 2\nrule=r55 2\nrule=r56 2\nrule=r57 2\nrule=r58 2\nrule=r59 2\nrule=r60 2\nrule=r61 2\nrule=r62 2\nrule=z 2\nend=protocol\n",
        10,
        73,
        1,
    ),
    // 16 sets
    Case(
        b"protocol=p\ntype=S a b\nvar=v0 S\nvar=v1 S\nvar=v2 S\nvar=v3 S\nvar=v4 S\nvar=v5 S\nvar=v6 S\nvar=v7 S\nvar=v8 S\nvar=v9 S\nvar=v10 S\nvar=v11 S\nvar=v12 S\nvar=v13 S\nvar=v14 S\nvar=v15 S\nvar=x S\nterm=val S a\nterm=true\ninit=1\nrule=r 1\nset=v0 0\nset=v1 0\nset=v2 0\nset=v3 0\nset=v4 0\nset=v5 0\nset=v6 0\nset=v7 0\nset=v8 0\nset=v9 0\nset=v10 0\nset=v11 0\nset=v12 0\nset=v13 0\nset=v14 0\nset=v15 0\nend=protocol\n",
        0,
        0,
        0,
    ),
    // 17 sets
    Case(
        b"protocol=p\ntype=S a b\nvar=v0 S\nvar=v1 S\nvar=v2 S\nvar=v3 S\nvar=v4 S\nvar=v5 S\nvar=v6 S\nvar=v7 S\nvar=v8 S\nvar=v9 S\nvar=v10 S\nvar=v11 S\nvar=v12 S\nvar=v13 S\nvar=v14 S\nvar=v15 S\nvar=x S\nterm=val S a\nterm=true\ninit=1\nrule=r 1\nset=v0 0\nset=v1 0\nset=v2 0\nset=v3 0\nset=v4 0\nset=v5 0\nset=v6 0\nset=v7 0\nset=v8 0\nset=v9 0\nset=v10 0\nset=v11 0\nset=v12 0\nset=v13 0\nset=v14 0\nset=v15 0\nset=x 0\nend=protocol\n",
        10,
        40,
        1,
    ),
    // 17 sets, twice
    Case(
        b"protocol=p\ntype=S a b\nvar=v0 S\nvar=v1 S\nvar=v2 S\nvar=v3 S\nvar=v4 S\nvar=v5 S\nvar=v6 S\nvar=v7 S\nvar=v8 S\nvar=v9 S\nvar=v10 S\nvar=v11 S\nvar=v12 S\nvar=v13 S\nvar=v14 S\nvar=v15 S\nvar=x S\nterm=val S a\nterm=true\ninit=1\nrule=r 1\nset=v0 0\nset=v1 0\nset=v2 0\nset=v3 0\nset=v4 0\nset=v5 0\nset=v6 0\nset=v7 0\nset=v8 0\nset=v9 0\nset=v10 0\nset=v11 0\nset=v12 0\nset=v13 0\nset=v14 0\nset=v15 0\nset=v0 0\nend=protocol\n",
        10,
        40,
        1,
    ),
    // 2^40 and one more pair
    Case(
        b"protocol=p\ntype=S a b c d e f g h i j k l m n o p\ntype=T a b\nvar=v0 S\nvar=v1 S\nvar=v2 S\nvar=v3 S\nvar=v4 S\nvar=v5 S\nvar=v6 S\nvar=v7 S\nvar=v8 S\nvar=v9 S\nvar=w T\nterm=true\ninit=0\nend=protocol\n",
        11,
        14,
        1,
    ),
];

// A variable that is set twice, not one below the other, and in the second rule; states past 2^40 by a type of three values; and
// faults of the last line.
const LATE: [Case; 5] = [
    Case(
        b"protocol=p\ntype=S a b\nvar=x S\nvar=y S\nterm=true\nterm=val S a\ninit=0\nrule=r 0\nset=x 1\nset=y 1\nset=x 1\nend=protocol\n",
        12,
        11,
        5,
    ),
    Case(
        b"protocol=p\ntype=S a b\nvar=x S\nvar=y S\nterm=true\nterm=val S a\ninit=0\nrule=r 0\nset=x 1\nrule=s 0\nset=y 1\nset=y 1\nend=protocol\n",
        12,
        12,
        5,
    ),
    Case(
        b"protocol=p\ntype=S a b c d e f g h i j k l m n o p\ntype=T a b c\nvar=v0 S\nvar=v1 S\nvar=v2 S\nvar=v3 S\nvar=v4 S\nvar=v5 S\nvar=v6 S\nvar=v7 S\nvar=v8 S\nvar=w0 T\nvar=w1 T\nvar=w2 T\nterm=true\ninit=0\nend=protocol\n",
        11,
        15,
        1,
    ),
    Case(
        b"protocol=p\ntype=S a b\nvar=x S\nterm=true\ninit=0\nend=proposal\n",
        5,
        6,
        5,
    ),
    Case(
        b"protocol=p\ntype=S a b\nvar=x S\nterm=true\ninit=0\nend=protocol x\n",
        5,
        6,
        14,
    ),
];

#[test]
fn bytes_and_line_feeds(rt: HostRuntime) {
    let heap = rt.alloc();
    run(&rt, &BYTES, |bytes| protocol_refusal(heap, bytes));
}

#[test]
fn keys(rt: HostRuntime) {
    let heap = rt.alloc();
    run(&rt, &KEYS, |bytes| protocol_refusal(heap, bytes));
}

#[test]
fn behind_the_end(rt: HostRuntime) -> Result<(), Fail> {
    let heap = rt.alloc();
    for Case(bytes, number, line, column) in &BEHIND {
        let text = repeated(heap, SMALLEST, 1, *bytes)?;
        assert_eq!(rt; protocol_refusal(heap, &text), (*number, *line, *column));
    }
    Ok(())
}

#[test]
fn protocol_files(rt: HostRuntime) {
    let heap = rt.alloc();
    run(&rt, &LATE, |bytes| protocol_refusal(heap, bytes));
    run(&rt, &FILES, |bytes| protocol_refusal(heap, bytes));
}

#[test]
fn protocol_files_of_many_lines(rt: HostRuntime) {
    let heap = rt.alloc();
    run(&rt, &MANY, |bytes| protocol_refusal(heap, bytes));
}

#[test]
fn long_lines(rt: HostRuntime) -> Result<(), Fail> {
    let heap = rt.alloc();
    for (count, Case(then, number, line, column)) in &LONG_LINES {
        let text = repeated(heap, b"x", *count, *then)?;
        assert_eq!(rt; protocol_refusal(heap, &text), (*number, *line, *column));
    }
    Ok(())
}

// 65,536 bytes are looked at line by line. One more is refused before anything else, bad bytes or not.
#[test]
fn long_files(rt: HostRuntime) -> Result<(), Fail> {
    let heap = rt.alloc();
    let most = repeated(heap, b"\0", 65536, b"")?;
    assert_eq!(rt; protocol_refusal(heap, &most), (2, 1, 1));
    let more = repeated(heap, b"\0", 65537, b"")?;
    assert_eq!(rt; protocol_refusal(heap, &more), (1, 0, 0));
    let lines = repeated(heap, b"\n", 65537, b"")?;
    assert_eq!(rt; protocol_refusal(heap, &lines), (1, 0, 0));
    let longer = repeated(heap, SMALLEST, 1, &more)?;
    assert_eq!(rt; protocol_refusal(heap, &longer), (1, 0, 0));
    let lines = repeated(heap, b"\n", 65536, b"")?;
    assert_eq!(rt; protocol_refusal(heap, &lines), (4, 1, 1));
    Ok(())
}

// 512 terms are allowed, and one more is refused in its place.
#[test]
fn many_terms(rt: HostRuntime) -> Result<(), Fail> {
    let heap = rt.alloc();
    let mut most = repeated(heap, b"protocol=p\ntype=S a b\nvar=x S\n", 1, b"")?;
    let terms = repeated(heap, b"term=true\n", 512, b"")?;
    most.extend_from_slice(terms.as_slice())?;
    let mut more = most.clone()?;
    most.extend_from_slice(b"init=511\nend=protocol\n")?;
    assert_eq!(rt; protocol_refusal(heap, &most), (0, 0, 0));
    more.extend_from_slice(b"term=true\ninit=0\nend=protocol\n")?;
    assert_eq!(rt; protocol_refusal(heap, &more), (10, 516, 1));
    Ok(())
}

// What a protocol says, part by part; a copy of it is equal, and another protocol is not.
#[test]
fn parts_of_a_protocol(rt: HostRuntime) -> Result<(), Fail> {
    let heap = rt.alloc();
    let text =
        b"protocol=p\ntype=S a b\ntype=T c d e\nvar=x S\nvar=y T\nterm=true\ninit=0\nrule=r 0\nend=protocol\n";
    let mut protocol = Protocol::empty(heap);
    assert!(rt; read(heap, text, &mut protocol).is_ok());
    assert_eq!(rt; protocol.name(), b"p".as_slice());
    assert_eq!(rt; protocol.types().sizes.as_slice(), [2, 3].as_slice());
    assert_eq!(rt; protocol.types().value_number(1, b"e"), Some(2));
    assert_eq!(rt; protocol.types().value_number(2, b"c"), None);
    assert_eq!(rt; protocol.variables().number(b"y"), Some(1));
    assert_eq!(rt; protocol.variables().states, 6);
    assert_eq!(rt; protocol.rules().len(), 1);
    assert_eq!(rt; protocol.type_name(1).unwrap_or(b""), b"T".as_slice());
    assert_eq!(rt; protocol.value_name(1, 2).unwrap_or(b""), b"e".as_slice());
    assert_eq!(rt; protocol.value_name(1, 3).is_some(), false);
    assert_eq!(rt; protocol.value_name(2, 0).is_some(), false);
    assert_eq!(rt; protocol.variable_name(1).unwrap_or(b""), b"y".as_slice());
    assert_eq!(rt; protocol.state_count(), 6);
    assert_eq!(rt; protocol.guard(0).unwrap_or(9), 0);
    let copy = protocol.copy(heap)?;
    assert!(rt; protocol.equals(&copy));
    assert!(rt; read(heap, b"", &mut protocol).is_err());
    assert_eq!(rt; protocol.rules().len(), 0);
    assert_eq!(rt; protocol.rule_count(), 0);
    assert!(rt; !protocol.equals(&copy));
    assert!(rt; protocol.equals(&Protocol::empty(heap)));
    Ok(())
}
