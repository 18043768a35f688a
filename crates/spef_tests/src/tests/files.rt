//! What is answered to small files.
use spef_text::{Cap, Conn, Res, SpefEnd, SpefFile, parse};
use std::alloc::Global;
use std::test::Fail;

/// Files that are accepted, one a line.
const ACCEPTED: &str = "*SPEF *INDUC
*SPEF *END *CONN *CAP *I
*SPEF *DESIGN
*SPEF x *DESIGN y *DESIGN z
*SPEF *DELIMITER - *DELIMITER ,
*SPEF *BUS_DELIMITER < > *BUS_DELIMITER ()
*SPEF *C_UNIT 1.0e-3 PF *C_UNIT +.5 FF
*SPEF *R_UNIT -1. *END
*SPEF *NAME_MAP *01 5 *1 1:2:3
*SPEF *PORTS *INDUC
*SPEF *D_NET n 1 *END *D_NET m 2 *END
*SPEF *D_NET n 1 *V -1e3 *CONN *CAP *RES *END
*SPEF *D_NET *1:2 1:2:3 *END
*SPEF *DELIMITER : *DELIMITER | *D_NET *1|: 1 *END
*SPEF *D_NET /x 1.e-9:+2:.5 *END
*SPEF *D_NET n 1 *CONN *I u:A I *C 1 2 *L 1 *S 1 2 3 *D nand2 *END
*SPEF *D_NET n 1 *CONN *I I I *END
*SPEF *D_NET n 1 *CONN *N x *I *1:A I *P p O *L 1 *CAP *END
*SPEF *D_NET n 1 *CAP 007 *1:2 *3:4 -1 *RES *END
*SPEF *D_NET n 1 *CAP 1 a 1:2 3 *END
*SPEF *D_NET n 1 *RES 1 1:2 3:4 5 *END";

/// Files with whose last token no text of the grammar goes on.
const REFUSED: &str = "*spef
*SPEF *SPEF
*SPEF *DIVIDER a
*SPEF *DIVIDER :/
*SPEF *BUS_DELIMITER [ a
*SPEF *C_UNIT 1 *R_UNIT
*SPEF *C_UNIT 1:1:1
*SPEF *R_UNIT 1e
*SPEF *NAME_MAP *1 *2
*SPEF *NAME_MAP *1:2
*SPEF *D_NET *1:
*SPEF *DELIMITER / *D_NET *1:2
*SPEF *D_NET n 1:2
*SPEF *D_NET n 1 *V 1:2:3
*SPEF *D_NET n 1 *D_NET
*SPEF *D_NET n 1 *END *PORTS
*SPEF *D_NET n 1 *CONN *L
*SPEF *D_NET n 1 *CONN *I u:A II
*SPEF *D_NET n 1 *CONN *I u:A I *L 1:2
*SPEF *D_NET n 1 *CONN *N *1:2 *L
*SPEF *D_NET n 1 *CAP 1 2
*SPEF *D_NET n 1 *CAP 1 a 1 *CONN
*SPEF *D_NET n 1 *RES 1 a 1
*SPEF *D_NET n 1 *RES 1 a b 1 *CAP";

/// Files that end too early.
const UNFINISHED: &str = "*SPEF *DIVIDER
*SPEF *BUS_DELIMITER [
*SPEF *NAME_MAP *1
*SPEF *D_NET n 1
*SPEF *D_NET n 1 *CONN *I u:A I
*SPEF *D_NET n 1 *CAP 1
*SPEF *D_NET n 1 *RES 1 a";

/// Files whose last token is refused by its name.
const NAMED: &str = "*R_NET
*SPEF x *PDEFINE
*SPEF *NAME_MAP *1 a *INDUC
*SPEF *D_NET n 1 *CONN *I u:A I *D_PNET
*SPEF *D_NET n 1 *RES 1 a b 1 *INDUC";

/// The token at which a file is refused, and whether by its name; nothing where it is accepted.
fn refusal(alloc: Global, text: &str) -> Option<(u64, bool)> {
    if text.len() >= 1 << 20 {
        return Some((0, false));
    }
    match parse(alloc, text.as_bytes()) {
        Ok(_) => None,
        Err(SpefEnd::Syntax { token }) => Some((token, false)),
        Err(SpefEnd::Form { word: _, token }) => Some((token, true)),
        Err(SpefEnd::OutOfMemory) => Some((0, false)),
    }
}

#[test]
fn files_are_accepted(rt: HostRuntime) -> Result<(), Fail> {
    for line in ACCEPTED.lines() {
        assert!(rt; refusal(rt.alloc(), line).is_none(), "{line}");
    }
    Ok(())
}

#[test]
fn files_are_refused(rt: HostRuntime) -> Result<(), Fail> {
    for (lines, more, named) in [
        (REFUSED, 0, false),
        (UNFINISHED, 1, false),
        (NAMED, 0, true),
    ] {
        for line in lines.lines() {
            let dead = (line.split_whitespace().count() as u64).wrapping_add(more);
            assert!(rt; refusal(rt.alloc(), line) == Some((dead, named)), "{line}");
        }
    }
    Ok(())
}

/// A net with each kind of entry.
const NET: &[u8] = b"*SPEF \"x\" *D_NET *1 0.5
*CONN *P a O *L 1 *C 7 *L 2
*I u1:Z I
*N x y
*CAP
1 a 0.1 // to ground
2 a b 0.2
*RES 1 a u1:Z 3 *END";

/// Whether the file says what that net says.
fn is_told(file: &SpefFile) -> bool {
    if file.section_count() != 1
        || file.conn_count(0) != 2
        || file.cap_count(0) != 2
        || file.res_count(0) != 1
    {
        return false;
    }
    file.net_token(0) == 4
        && matches!(
            file.conn(0, 0),
            Conn {
                port: true,
                node: 8,
                direction: b'O',
                load: Some(15)
            }
        )
        && matches!(
            file.conn(0, 1),
            Conn {
                port: false,
                node: 17,
                direction: b'I',
                load: None
            }
        )
        && matches!(
            file.cap(0, 0),
            Cap {
                first: 24,
                second: None,
                value: 25
            }
        )
        && matches!(
            file.cap(0, 1),
            Cap {
                first: 27,
                second: Some(28),
                value: 29
            }
        )
        && matches!(
            file.res(0, 0),
            Res {
                first: 32,
                second: 33,
                value: 34
            }
        )
}

#[test]
fn the_entries_of_a_net_are_told(rt: HostRuntime) -> Result<(), Fail> {
    match parse(rt.alloc(), NET) {
        Ok(file) => assert!(rt; is_told(&file)),
        Err(_) => assert!(rt; false),
    }
    Ok(())
}
