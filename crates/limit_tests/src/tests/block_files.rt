//! Blocks of one, two and three inverters.
use super::comparing::expect;
use std::test::Fail;
use trial_files::block_files;

const ONE_GATE: &[u8] = b"module top (a, z);
input a;
output z;
INV u1 (.A(a), .Z(z));
endmodule
";

const ONE: &[u8] = b"*SPEF \"IEEE 1481-1998\"
*DIVIDER /
*DELIMITER :
*C_UNIT 1 FF
*R_UNIT 1 OHM
*D_NET a 2
*CONN
*P a I
*I u1:A I
*CAP
1 u1:A 2
*RES
1 a u1:A 100
*END
*D_NET z 2
*CONN
*I u1:Z O
*P z O
*CAP
1 z 2
*RES
1 u1:Z z 100
*END
";

const TWO_GATES: &[u8] = b"module top (a, z);
input a;
output z;
INV u2 (.A(n1), .Z(z));
INV u1 (.A(a), .Z(n1));
endmodule
";

const TWO: &[u8] = b"*SPEF \"IEEE 1481-1998\"
*DIVIDER /
*DELIMITER :
*C_UNIT 1 FF
*R_UNIT 1 OHM
*D_NET a 2
*CONN
*P a I
*I u1:A I
*CAP
1 u1:A 2
*RES
1 a u1:A 100
*END
*D_NET n1 2
*CONN
*I u1:Z O
*I u2:A I
*CAP
1 u2:A 2
*RES
1 u1:Z u2:A 100
*END
*D_NET z 2
*CONN
*I u2:Z O
*P z O
*CAP
1 z 2
*RES
1 u2:Z z 100
*END
";

const THREE_GATES: &[u8] = b"module top (a, z);
input a;
output z;
INV u3 (.A(n2), .Z(z));
INV u2 (.A(n1), .Z(n2));
INV u1 (.A(a), .Z(n1));
endmodule
";

const THREE: &[u8] = b"*SPEF \"IEEE 1481-1998\"
*DIVIDER /
*DELIMITER :
*C_UNIT 1 FF
*R_UNIT 1 OHM
*D_NET a 2
*CONN
*P a I
*I u1:A I
*CAP
1 u1:A 2
*RES
1 a u1:A 100
*END
*D_NET n1 2
*CONN
*I u1:Z O
*I u2:A I
*CAP
1 u2:A 2
*RES
1 u1:Z u2:A 100
*END
*D_NET n2 2
*CONN
*I u2:Z O
*I u3:A I
*CAP
1 u3:A 2
*RES
1 u2:Z u3:A 100
*END
*D_NET z 2
*CONN
*I u3:Z O
*P z O
*CAP
1 z 2
*RES
1 u3:Z z 100
*END
";

#[test]
fn a_block_is_written(rt: HostRuntime) -> Result<(), Fail> {
    expect(&rt, &block_files(rt.alloc(), 1)?, ONE_GATE, ONE);
    expect(&rt, &block_files(rt.alloc(), 2)?, TWO_GATES, TWO);
    expect(&rt, &block_files(rt.alloc(), 3)?, THREE_GATES, THREE);
    Ok(())
}
