//! Chains of one, two and three resistors.
use super::comparing::expect;
use std::test::Fail;
use trial_files::chain_files;

const NETLIST: &[u8] = b"module top (a, z);
input a;
output z;
INV u1 (.A(a), .Z(n));
INV u2 (.A(n), .Z(z));
endmodule
";

const ONE: &[u8] = b"*SPEF \"IEEE 1481-1998\"
*DIVIDER /
*DELIMITER :
*C_UNIT 1 FF
*R_UNIT 1 OHM
*D_NET a 0
*CONN
*P a I
*I u1:A I
*END
*D_NET n 1
*CONN
*I u1:Z O
*I u2:A I
*CAP
1 u2:A 1
*RES
1 u1:Z u2:A 1
*END
*D_NET z 1
*CONN
*I u2:Z O
*P z O
*CAP
1 u2:Z 1
*END
";

const TWO: &[u8] = b"*SPEF \"IEEE 1481-1998\"
*DIVIDER /
*DELIMITER :
*C_UNIT 1 FF
*R_UNIT 1 OHM
*D_NET a 0
*CONN
*P a I
*I u1:A I
*END
*D_NET n 2
*CONN
*I u1:Z O
*I u2:A I
*CAP
1 n:1 1
2 u2:A 1
*RES
1 u1:Z n:1 1
2 n:1 u2:A 1
*END
*D_NET z 1
*CONN
*I u2:Z O
*P z O
*CAP
1 u2:Z 1
*END
";

const THREE: &[u8] = b"*SPEF \"IEEE 1481-1998\"
*DIVIDER /
*DELIMITER :
*C_UNIT 1 FF
*R_UNIT 1 OHM
*D_NET a 0
*CONN
*P a I
*I u1:A I
*END
*D_NET n 3
*CONN
*I u1:Z O
*I u2:A I
*CAP
1 n:1 1
2 n:2 1
3 u2:A 1
*RES
1 u1:Z n:1 1
2 n:1 n:2 1
3 n:2 u2:A 1
*END
*D_NET z 1
*CONN
*I u2:Z O
*P z O
*CAP
1 u2:Z 1
*END
";

#[test]
fn a_chain_is_written(rt: HostRuntime) -> Result<(), Fail> {
    expect(&rt, &chain_files(rt.alloc(), 1)?, NETLIST, ONE);
    expect(&rt, &chain_files(rt.alloc(), 2)?, NETLIST, TWO);
    expect(&rt, &chain_files(rt.alloc(), 3)?, NETLIST, THREE);
    Ok(())
}
