//! A small run: its three inputs, and its statements. Several tests share it.
#![tactic(auto)]

use std::alloc::{AllocError, Global};

/// A table of territories, in which 9001 is a group of our own.
pub const TERRITORIES: &str = "code,groups\n2136,\n9001,2136\n276,9001\n840,2136\n";

/// A table of no usage lines: the header alone.
pub const NO_USES: &str = "usage,work,territory,right,amount\n";

/// Three usage lines, the last of a work that has no registration.
pub const USES: &str = "\
usage,work,territory,right,amount
u1,W1,276,P,100
u2,W1,840,P,50
u3,W9,276,P,7
";

/// Four usage lines: the second takes money back, the third takes back the first, and the last is of a work that has no
/// registration.
pub const USES_TAKEN_BACK: &str = "\
usage,work,territory,right,amount
u1,W1,276,P,100
u2,W1,840,P,-50
u3,W1,276,P,-100
u4,W9,276,P,-7
";

/// A work of two parties: A all over the world but in 840, and B.
pub const TWO_PARTIES: &str = "\
NWR0000000000000000SONG                                                          W1
SPU0000000000000001
SPT0000000000000002A              060000600006000I2136
SPT0000000000000003A                             E0840
SPU0000000000000004
SPT0000000000000005B              040000400004000I2136
";

/// A table of payees: what B claims is paid to the account of A.
pub const B_PAID_TO_A: &str = "party,payee\nB,A\n";

/// What a run over them prints.
pub const STATEMENTS: &str = "\
L,A,u1,60
S,A,1,60
L,B,u1,40
L,B,u2,20
S,B,2,60
M,OPEN,u2,30
M,WORK,u3,7
T,,2,37
R,,3,157
";

/// What a run prints whose lines take money back.
pub const STATEMENTS_TAKEN_BACK: &str = "\
L,A,u1,60
L,A,u3,-60
S,A,2,0
L,B,u1,40
L,B,u2,-20
L,B,u3,-40
S,B,3,-20
M,OPEN,u2,-30
M,WORK,u4,-7
T,,2,-37
R,,4,-57
";

/// A table of so many usage lines of 100 each, of the work of two parties.
pub fn equal_uses(alloc: Global, lines: usize) -> Result<String, AllocError> {
    let mut text = String::new(alloc);
    text.push_str(NO_USES)?;
    for _ in 0..lines {
        text.push_str("u,W1,276,P,100\n")?;
    }
    Ok(text)
}
