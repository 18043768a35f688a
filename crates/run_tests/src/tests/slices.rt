//! `calc` of a block of two levels, with buses, a clock tree and a name map, and `show` of what comes of it. The texts are those of the
//! files `slices` under examples/.
use super::{Plan, expects};
use std::test::Fail;

/// Fourteen instances of four cells.
const NETLIST: &[u8] =
    b"// A block of two levels: four slices of a register behind a gate, and a clock tree of two buffers.
module slice (ck, en, d, q);
  input ck, en, d;
  output q;
  wire n1, n2;
  NAND2 g1 (.A(d), .B(en), .Z(n1));
  INV g2 (.A(n1), .Z(n2));
  DFF r (.CK(ck), .D(n2), .Q(q));
endmodule

module blk (ck, en, d, q);
  input ck, en;
  input [3:0] d;
  output [3:0] q;
  wire cka, ckb;
  CLKBUF cb0 (.A(ck), .Z(cka));
  CLKBUF cb1 (.A(cka), .Z(ckb));
  slice s0 (.ck(ckb), .en(en), .d(d[0]), .q(q[0]));
  slice s1 (.ck(ckb), .en(en), .d(d[1]), .q(q[1]));
  slice s2 (.ck(ckb), .en(en), .d(d[2]), .q(q[2]));
  slice s3 (.ck(ckb), .en(en), .d(d[3]), .q(q[3]));
endmodule
";

/// The parasitics of its nets, by a name map.
const SPEF: &[u8] = b"*SPEF \"IEEE 1481-1998\"
*DESIGN \"blk\"
*DIVIDER /
*DELIMITER :
*BUS_DELIMITER []
*T_UNIT 1 PS
*C_UNIT 1 FF
*R_UNIT 1 OHM
*L_UNIT 1 HENRY

*NAME_MAP
*1 ckb
*2 cb1
*3 s0/r
*4 s1/r
*5 s2/r
*6 s3/r

*D_NET *1 4.0
*CONN
*I *2:Z O *D CLKBUF
*I *3:CK I *D DFF
*I *4:CK I *D DFF
*I *5:CK I *D DFF
*I *6:CK I *D DFF
*CAP
1 *1:1 2.0
2 *1:2 2.0
*RES
1 *2:Z *1:1 20
2 *1:1 *3:CK 10
3 *1:1 *4:CK 10
4 *1:1 *1:2 30
5 *1:2 *5:CK 10
6 *1:2 *6:CK 10
*END

*D_NET cka 1.0
*CAP
1 cb0:Z 1.0
*END

*D_NET ck 1.0
*CAP
1 ck 1.0
*END

*D_NET en 1.0
*CAP
1 en 1.0
*END

*D_NET d[0] 1.0
*CAP
1 d[0] 1.0
*END

*D_NET q[0] 1.0
*CAP
1 s0/r:Q 1.0
*END

*D_NET s0/n1 1.0
*CAP
1 s0/g1:Z 1.0
*END

*D_NET s0/n2 1.0
*CAP
1 s0/g2:Z 1.0
*END

*D_NET d[1] 1.0
*CAP
1 d[1] 1.0
*END

*D_NET q[1] 1.0
*CAP
1 s1/r:Q 1.0
*END

*D_NET s1/n1 1.0
*CAP
1 s1/g1:Z 1.0
*END

*D_NET s1/n2 1.0
*CAP
1 s1/g2:Z 1.0
*END

*D_NET d[2] 1.0
*CAP
1 d[2] 1.0
*END

*D_NET q[2] 1.0
*CAP
1 s2/r:Q 1.0
*END

*D_NET s2/n1 1.0
*CAP
1 s2/g1:Z 1.0
*END

*D_NET s2/n2 1.0
*CAP
1 s2/g2:Z 1.0
*END

*D_NET d[3] 1.0
*CAP
1 d[3] 1.0
*END

*D_NET q[3] 1.0
*CAP
1 s3/r:Q 1.0
*END

*D_NET s3/n1 1.0
*CAP
1 s3/g1:Z 1.0
*END

*D_NET s3/n2 1.0
*CAP
1 s3/g2:Z 1.0
*END
";

/// A library of four cells, with tables of seven slews and seven loads in nanoseconds and picofarads.
const LIBRARY: &[u8] =
    b"/* Four cells for the design of slices.v: times in nanoseconds, capacitances in picofarads. Each table has seven slews of the
   input and seven loads of the output. */
library (block_cells) {
  delay_model : table_lookup;
  time_unit : \"1ns\";
  voltage_unit : \"1V\";
  capacitive_load_unit (1, pf);
  lu_table_template (slew_by_load) {
    variable_1 : input_net_transition;
    variable_2 : total_output_net_capacitance;
    index_1 (\"0.001, 0.005, 0.01, 0.02, 0.05, 0.1, 0.2\");
    index_2 (\"0.0005, 0.001, 0.002, 0.004, 0.008, 0.016, 0.032\");
  }
  cell (CLKBUF) {
    area : 1.0;
    pin (A) {
      direction : input;
      capacitance : 0.002;
    }
    pin (Z) {
      direction : output;
      timing () {
        related_pin : \"A\";
        timing_sense : positive_unate;
        cell_rise (slew_by_load) {
          values (\"0.0107, 0.0112, 0.0122, 0.0142, 0.0182, 0.0262, 0.0422\", \\
                  \"0.0115, 0.012, 0.013, 0.015, 0.019, 0.027, 0.043\", \\
                  \"0.0125, 0.013, 0.014, 0.016, 0.02, 0.028, 0.044\", \\
                  \"0.0145, 0.015, 0.016, 0.018, 0.022, 0.03, 0.046\", \\
                  \"0.0205, 0.021, 0.022, 0.024, 0.028, 0.036, 0.052\", \\
                  \"0.0305, 0.031, 0.032, 0.034, 0.038, 0.046, 0.062\", \\
                  \"0.0505, 0.051, 0.052, 0.054, 0.058, 0.066, 0.082\");
        }
        cell_fall (slew_by_load) {
          values (\"0.0127, 0.0132, 0.0142, 0.0162, 0.0202, 0.0282, 0.0442\", \\
                  \"0.0135, 0.014, 0.015, 0.017, 0.021, 0.029, 0.045\", \\
                  \"0.0145, 0.015, 0.016, 0.018, 0.022, 0.03, 0.046\", \\
                  \"0.0165, 0.017, 0.018, 0.02, 0.024, 0.032, 0.048\", \\
                  \"0.0225, 0.023, 0.024, 0.026, 0.03, 0.038, 0.054\", \\
                  \"0.0325, 0.033, 0.034, 0.036, 0.04, 0.048, 0.064\", \\
                  \"0.0525, 0.053, 0.054, 0.056, 0.06, 0.068, 0.084\");
        }
        rise_transition (slew_by_load) {
          values (\"0.0045, 0.005, 0.006, 0.008, 0.012, 0.02, 0.036\", \\
                  \"0.0045, 0.005, 0.006, 0.008, 0.012, 0.02, 0.036\", \\
                  \"0.0045, 0.005, 0.006, 0.008, 0.012, 0.02, 0.036\", \\
                  \"0.0045, 0.005, 0.006, 0.008, 0.012, 0.02, 0.036\", \\
                  \"0.0045, 0.005, 0.006, 0.008, 0.012, 0.02, 0.036\", \\
                  \"0.0045, 0.005, 0.006, 0.008, 0.012, 0.02, 0.036\", \\
                  \"0.0045, 0.005, 0.006, 0.008, 0.012, 0.02, 0.036\");
        }
        fall_transition (slew_by_load) {
          values (\"0.0055, 0.006, 0.007, 0.009, 0.013, 0.021, 0.037\", \\
                  \"0.0055, 0.006, 0.007, 0.009, 0.013, 0.021, 0.037\", \\
                  \"0.0055, 0.006, 0.007, 0.009, 0.013, 0.021, 0.037\", \\
                  \"0.0055, 0.006, 0.007, 0.009, 0.013, 0.021, 0.037\", \\
                  \"0.0055, 0.006, 0.007, 0.009, 0.013, 0.021, 0.037\", \\
                  \"0.0055, 0.006, 0.007, 0.009, 0.013, 0.021, 0.037\", \\
                  \"0.0055, 0.006, 0.007, 0.009, 0.013, 0.021, 0.037\");
        }
      }
    }
  }
  cell (NAND2) {
    area : 1.0;
    pin (A) {
      direction : input;
      capacitance : 0.001;
    }
    pin (B) {
      direction : input;
      capacitance : 0.001;
    }
    pin (Z) {
      direction : output;
      timing () {
        related_pin : \"A B\";
        timing_sense : negative_unate;
        cell_rise (slew_by_load) {
          values (\"0.0091, 0.0101, 0.0121, 0.0161, 0.0241, 0.0401, 0.0721\", \\
                  \"0.0095, 0.0105, 0.0125, 0.0165, 0.0245, 0.0405, 0.0725\", \\
                  \"0.01, 0.011, 0.013, 0.017, 0.025, 0.041, 0.073\", \\
                  \"0.011, 0.012, 0.014, 0.018, 0.026, 0.042, 0.074\", \\
                  \"0.014, 0.015, 0.017, 0.021, 0.029, 0.045, 0.077\", \\
                  \"0.019, 0.02, 0.022, 0.026, 0.034, 0.05, 0.082\", \\
                  \"0.029, 0.03, 0.032, 0.036, 0.044, 0.06, 0.092\");
        }
        cell_fall (slew_by_load) {
          values (\"0.0081, 0.0091, 0.0111, 0.0151, 0.0231, 0.0391, 0.0711\", \\
                  \"0.0085, 0.0095, 0.0115, 0.0155, 0.0235, 0.0395, 0.0715\", \\
                  \"0.009, 0.01, 0.012, 0.016, 0.024, 0.04, 0.072\", \\
                  \"0.01, 0.011, 0.013, 0.017, 0.025, 0.041, 0.073\", \\
                  \"0.013, 0.014, 0.016, 0.02, 0.028, 0.044, 0.076\", \\
                  \"0.018, 0.019, 0.021, 0.025, 0.033, 0.049, 0.081\", \\
                  \"0.028, 0.029, 0.031, 0.035, 0.043, 0.059, 0.091\");
        }
        rise_transition (slew_by_load) {
          values (\"0.007, 0.008, 0.01, 0.014, 0.022, 0.038, 0.07\", \\
                  \"0.007, 0.008, 0.01, 0.014, 0.022, 0.038, 0.07\", \\
                  \"0.007, 0.008, 0.01, 0.014, 0.022, 0.038, 0.07\", \\
                  \"0.007, 0.008, 0.01, 0.014, 0.022, 0.038, 0.07\", \\
                  \"0.007, 0.008, 0.01, 0.014, 0.022, 0.038, 0.07\", \\
                  \"0.007, 0.008, 0.01, 0.014, 0.022, 0.038, 0.07\", \\
                  \"0.007, 0.008, 0.01, 0.014, 0.022, 0.038, 0.07\");
        }
        fall_transition (slew_by_load) {
          values (\"0.006, 0.007, 0.009, 0.013, 0.021, 0.037, 0.069\", \\
                  \"0.006, 0.007, 0.009, 0.013, 0.021, 0.037, 0.069\", \\
                  \"0.006, 0.007, 0.009, 0.013, 0.021, 0.037, 0.069\", \\
                  \"0.006, 0.007, 0.009, 0.013, 0.021, 0.037, 0.069\", \\
                  \"0.006, 0.007, 0.009, 0.013, 0.021, 0.037, 0.069\", \\
                  \"0.006, 0.007, 0.009, 0.013, 0.021, 0.037, 0.069\", \\
                  \"0.006, 0.007, 0.009, 0.013, 0.021, 0.037, 0.069\");
        }
      }
    }
  }
  cell (INV) {
    area : 1.0;
    pin (A) {
      direction : input;
      capacitance : 0.001;
    }
    pin (Z) {
      direction : output;
      timing () {
        related_pin : \"A\";
        timing_sense : negative_unate;
        cell_rise (slew_by_load) {
          values (\"0.0061, 0.0071, 0.0091, 0.0131, 0.0211, 0.0371, 0.0691\", \\
                  \"0.0065, 0.0075, 0.0095, 0.0135, 0.0215, 0.0375, 0.0695\", \\
                  \"0.007, 0.008, 0.01, 0.014, 0.022, 0.038, 0.07\", \\
                  \"0.008, 0.009, 0.011, 0.015, 0.023, 0.039, 0.071\", \\
                  \"0.011, 0.012, 0.014, 0.018, 0.026, 0.042, 0.074\", \\
                  \"0.016, 0.017, 0.019, 0.023, 0.031, 0.047, 0.079\", \\
                  \"0.026, 0.027, 0.029, 0.033, 0.041, 0.057, 0.089\");
        }
        cell_fall (slew_by_load) {
          values (\"0.0051, 0.0061, 0.0081, 0.0121, 0.0201, 0.0361, 0.0681\", \\
                  \"0.0055, 0.0065, 0.0085, 0.0125, 0.0205, 0.0365, 0.0685\", \\
                  \"0.006, 0.007, 0.009, 0.013, 0.021, 0.037, 0.069\", \\
                  \"0.007, 0.008, 0.01, 0.014, 0.022, 0.038, 0.07\", \\
                  \"0.01, 0.011, 0.013, 0.017, 0.025, 0.041, 0.073\", \\
                  \"0.015, 0.016, 0.018, 0.022, 0.03, 0.046, 0.078\", \\
                  \"0.025, 0.026, 0.028, 0.032, 0.04, 0.056, 0.088\");
        }
        rise_transition (slew_by_load) {
          values (\"0.004, 0.005, 0.007, 0.011, 0.019, 0.035, 0.067\", \\
                  \"0.004, 0.005, 0.007, 0.011, 0.019, 0.035, 0.067\", \\
                  \"0.004, 0.005, 0.007, 0.011, 0.019, 0.035, 0.067\", \\
                  \"0.004, 0.005, 0.007, 0.011, 0.019, 0.035, 0.067\", \\
                  \"0.004, 0.005, 0.007, 0.011, 0.019, 0.035, 0.067\", \\
                  \"0.004, 0.005, 0.007, 0.011, 0.019, 0.035, 0.067\", \\
                  \"0.004, 0.005, 0.007, 0.011, 0.019, 0.035, 0.067\");
        }
        fall_transition (slew_by_load) {
          values (\"0.003, 0.004, 0.006, 0.01, 0.018, 0.034, 0.066\", \\
                  \"0.003, 0.004, 0.006, 0.01, 0.018, 0.034, 0.066\", \\
                  \"0.003, 0.004, 0.006, 0.01, 0.018, 0.034, 0.066\", \\
                  \"0.003, 0.004, 0.006, 0.01, 0.018, 0.034, 0.066\", \\
                  \"0.003, 0.004, 0.006, 0.01, 0.018, 0.034, 0.066\", \\
                  \"0.003, 0.004, 0.006, 0.01, 0.018, 0.034, 0.066\", \\
                  \"0.003, 0.004, 0.006, 0.01, 0.018, 0.034, 0.066\");
        }
      }
    }
  }
  cell (DFF) {
    area : 1.0;
    pin (CK) {
      direction : input;
      clock : true;
      capacitance : 0.001;
    }
    pin (D) {
      direction : input;
      capacitance : 0.001;
    }
    pin (Q) {
      direction : output;
      timing () {
        related_pin : \"CK\";
        timing_type : rising_edge;
        cell_rise (slew_by_load) {
          values (\"0.0417, 0.0432, 0.0462, 0.0522, 0.0642, 0.0882, 0.1362\", \\
                  \"0.0425, 0.044, 0.047, 0.053, 0.065, 0.089, 0.137\", \\
                  \"0.0435, 0.045, 0.048, 0.054, 0.066, 0.09, 0.138\", \\
                  \"0.0455, 0.047, 0.05, 0.056, 0.068, 0.092, 0.14\", \\
                  \"0.0515, 0.053, 0.056, 0.062, 0.074, 0.098, 0.146\", \\
                  \"0.0615, 0.063, 0.066, 0.072, 0.084, 0.108, 0.156\", \\
                  \"0.0815, 0.083, 0.086, 0.092, 0.104, 0.128, 0.176\");
        }
        cell_fall (slew_by_load) {
          values (\"0.0467, 0.0482, 0.0512, 0.0572, 0.0692, 0.0932, 0.1412\", \\
                  \"0.0475, 0.049, 0.052, 0.058, 0.07, 0.094, 0.142\", \\
                  \"0.0485, 0.05, 0.053, 0.059, 0.071, 0.095, 0.143\", \\
                  \"0.0505, 0.052, 0.055, 0.061, 0.073, 0.097, 0.145\", \\
                  \"0.0565, 0.058, 0.061, 0.067, 0.079, 0.103, 0.151\", \\
                  \"0.0665, 0.068, 0.071, 0.077, 0.089, 0.113, 0.161\", \\
                  \"0.0865, 0.088, 0.091, 0.097, 0.109, 0.133, 0.181\");
        }
        rise_transition (slew_by_load) {
          values (\"0.0095, 0.011, 0.014, 0.02, 0.032, 0.056, 0.104\", \\
                  \"0.0095, 0.011, 0.014, 0.02, 0.032, 0.056, 0.104\", \\
                  \"0.0095, 0.011, 0.014, 0.02, 0.032, 0.056, 0.104\", \\
                  \"0.0095, 0.011, 0.014, 0.02, 0.032, 0.056, 0.104\", \\
                  \"0.0095, 0.011, 0.014, 0.02, 0.032, 0.056, 0.104\", \\
                  \"0.0095, 0.011, 0.014, 0.02, 0.032, 0.056, 0.104\", \\
                  \"0.0095, 0.011, 0.014, 0.02, 0.032, 0.056, 0.104\");
        }
        fall_transition (slew_by_load) {
          values (\"0.0085, 0.01, 0.013, 0.019, 0.031, 0.055, 0.103\", \\
                  \"0.0085, 0.01, 0.013, 0.019, 0.031, 0.055, 0.103\", \\
                  \"0.0085, 0.01, 0.013, 0.019, 0.031, 0.055, 0.103\", \\
                  \"0.0085, 0.01, 0.013, 0.019, 0.031, 0.055, 0.103\", \\
                  \"0.0085, 0.01, 0.013, 0.019, 0.031, 0.055, 0.103\", \\
                  \"0.0085, 0.01, 0.013, 0.019, 0.031, 0.055, 0.103\", \\
                  \"0.0085, 0.01, 0.013, 0.019, 0.031, 0.055, 0.103\");
        }
      }
    }
    pin (QN) {
      direction : output;
      timing () {
        related_pin : \"CK\";
        timing_type : rising_edge;
        cell_rise (slew_by_load) {
          values (\"0.0417, 0.0432, 0.0462, 0.0522, 0.0642, 0.0882, 0.1362\", \\
                  \"0.0425, 0.044, 0.047, 0.053, 0.065, 0.089, 0.137\", \\
                  \"0.0435, 0.045, 0.048, 0.054, 0.066, 0.09, 0.138\", \\
                  \"0.0455, 0.047, 0.05, 0.056, 0.068, 0.092, 0.14\", \\
                  \"0.0515, 0.053, 0.056, 0.062, 0.074, 0.098, 0.146\", \\
                  \"0.0615, 0.063, 0.066, 0.072, 0.084, 0.108, 0.156\", \\
                  \"0.0815, 0.083, 0.086, 0.092, 0.104, 0.128, 0.176\");
        }
        cell_fall (slew_by_load) {
          values (\"0.0467, 0.0482, 0.0512, 0.0572, 0.0692, 0.0932, 0.1412\", \\
                  \"0.0475, 0.049, 0.052, 0.058, 0.07, 0.094, 0.142\", \\
                  \"0.0485, 0.05, 0.053, 0.059, 0.071, 0.095, 0.143\", \\
                  \"0.0505, 0.052, 0.055, 0.061, 0.073, 0.097, 0.145\", \\
                  \"0.0565, 0.058, 0.061, 0.067, 0.079, 0.103, 0.151\", \\
                  \"0.0665, 0.068, 0.071, 0.077, 0.089, 0.113, 0.161\", \\
                  \"0.0865, 0.088, 0.091, 0.097, 0.109, 0.133, 0.181\");
        }
        rise_transition (slew_by_load) {
          values (\"0.0095, 0.011, 0.014, 0.02, 0.032, 0.056, 0.104\", \\
                  \"0.0095, 0.011, 0.014, 0.02, 0.032, 0.056, 0.104\", \\
                  \"0.0095, 0.011, 0.014, 0.02, 0.032, 0.056, 0.104\", \\
                  \"0.0095, 0.011, 0.014, 0.02, 0.032, 0.056, 0.104\", \\
                  \"0.0095, 0.011, 0.014, 0.02, 0.032, 0.056, 0.104\", \\
                  \"0.0095, 0.011, 0.014, 0.02, 0.032, 0.056, 0.104\", \\
                  \"0.0095, 0.011, 0.014, 0.02, 0.032, 0.056, 0.104\");
        }
        fall_transition (slew_by_load) {
          values (\"0.0085, 0.01, 0.013, 0.019, 0.031, 0.055, 0.103\", \\
                  \"0.0085, 0.01, 0.013, 0.019, 0.031, 0.055, 0.103\", \\
                  \"0.0085, 0.01, 0.013, 0.019, 0.031, 0.055, 0.103\", \\
                  \"0.0085, 0.01, 0.013, 0.019, 0.031, 0.055, 0.103\", \\
                  \"0.0085, 0.01, 0.013, 0.019, 0.031, 0.055, 0.103\", \\
                  \"0.0085, 0.01, 0.013, 0.019, 0.031, 0.055, 0.103\", \\
                  \"0.0085, 0.01, 0.013, 0.019, 0.031, 0.055, 0.103\");
        }
      }
    }
  }
}
";

/// Its delays at a slew of 20 ps and a load of 5 fF.
const DELAYS: &[u8] = b"(DELAYFILE
(SDFVERSION \"3.0\")
(DESIGN \"blk\")
(PROGRAM \"gdc\")
(VERSION \"1\")
(DIVIDER /)
(TIMESCALE 1ps)
(CELL
(CELLTYPE \"blk\")
(INSTANCE)
(DELAY
(ABSOLUTE
(INTERCONNECT ck cb0/A (0.000))
(INTERCONNECT en s0/g1/B (0.000))
(INTERCONNECT en s1/g1/B (0.000))
(INTERCONNECT en s2/g1/B (0.000))
(INTERCONNECT en s3/g1/B (0.000))
(INTERCONNECT d[3] s3/g1/A (0.000))
(INTERCONNECT d[2] s2/g1/A (0.000))
(INTERCONNECT d[1] s1/g1/A (0.000))
(INTERCONNECT d[0] s0/g1/A (0.000))
(INTERCONNECT s3/r/Q q[3] (0.000))
(INTERCONNECT s2/r/Q q[2] (0.000))
(INTERCONNECT s1/r/Q q[1] (0.000))
(INTERCONNECT s0/r/Q q[0] (0.000))
(INTERCONNECT cb0/Z cb1/A (0.000))
(INTERCONNECT cb1/Z s0/r/CK (0.170))
(INTERCONNECT cb1/Z s1/r/CK (0.170))
(INTERCONNECT cb1/Z s2/r/CK (0.290))
(INTERCONNECT cb1/Z s3/r/CK (0.290))
(INTERCONNECT s0/g1/Z s0/g2/A (0.000))
(INTERCONNECT s0/g2/Z s0/r/D (0.000))
(INTERCONNECT s1/g1/Z s1/g2/A (0.000))
(INTERCONNECT s1/g2/Z s1/r/D (0.000))
(INTERCONNECT s2/g1/Z s2/g2/A (0.000))
(INTERCONNECT s2/g2/Z s2/r/D (0.000))
(INTERCONNECT s3/g1/Z s3/g2/A (0.000))
(INTERCONNECT s3/g2/Z s3/r/D (0.000))
)
)
)
(CELL
(CELLTYPE \"CLKBUF\")
(INSTANCE cb0)
(DELAY
(ABSOLUTE
(IOPATH A Z (17.000) (19.000))
)
)
)
(CELL
(CELLTYPE \"CLKBUF\")
(INSTANCE cb1)
(DELAY
(ABSOLUTE
(IOPATH A Z (19.400) (21.600))
)
)
)
(CELL
(CELLTYPE \"NAND2\")
(INSTANCE s0/g1)
(DELAY
(ABSOLUTE
(IOPATH A Z (14.000) (13.000))
(IOPATH B Z (14.000) (13.000))
)
)
)
(CELL
(CELLTYPE \"INV\")
(INSTANCE s0/g2)
(DELAY
(ABSOLUTE
(IOPATH A Z (9.900) (9.000))
)
)
)
(CELL
(CELLTYPE \"DFF\")
(INSTANCE s0/r)
(DELAY
(ABSOLUTE
(IOPATH CK Q (60.400) (65.400))
)
)
)
(CELL
(CELLTYPE \"NAND2\")
(INSTANCE s1/g1)
(DELAY
(ABSOLUTE
(IOPATH A Z (14.000) (13.000))
(IOPATH B Z (14.000) (13.000))
)
)
)
(CELL
(CELLTYPE \"INV\")
(INSTANCE s1/g2)
(DELAY
(ABSOLUTE
(IOPATH A Z (9.900) (9.000))
)
)
)
(CELL
(CELLTYPE \"DFF\")
(INSTANCE s1/r)
(DELAY
(ABSOLUTE
(IOPATH CK Q (60.400) (65.400))
)
)
)
(CELL
(CELLTYPE \"NAND2\")
(INSTANCE s2/g1)
(DELAY
(ABSOLUTE
(IOPATH A Z (14.000) (13.000))
(IOPATH B Z (14.000) (13.000))
)
)
)
(CELL
(CELLTYPE \"INV\")
(INSTANCE s2/g2)
(DELAY
(ABSOLUTE
(IOPATH A Z (9.900) (9.000))
)
)
)
(CELL
(CELLTYPE \"DFF\")
(INSTANCE s2/r)
(DELAY
(ABSOLUTE
(IOPATH CK Q (60.400) (65.400))
)
)
)
(CELL
(CELLTYPE \"NAND2\")
(INSTANCE s3/g1)
(DELAY
(ABSOLUTE
(IOPATH A Z (14.000) (13.000))
(IOPATH B Z (14.000) (13.000))
)
)
)
(CELL
(CELLTYPE \"INV\")
(INSTANCE s3/g2)
(DELAY
(ABSOLUTE
(IOPATH A Z (9.900) (9.000))
)
)
)
(CELL
(CELLTYPE \"DFF\")
(INSTANCE s3/r)
(DELAY
(ABSOLUTE
(IOPATH CK Q (60.400) (65.400))
)
)
)
)
";

/// The rows of these delays.
const ROWS: &[u8] = b"wire ck cb0/A 0.000
wire en s0/g1/B 0.000
wire en s1/g1/B 0.000
wire en s2/g1/B 0.000
wire en s3/g1/B 0.000
wire d[3] s3/g1/A 0.000
wire d[2] s2/g1/A 0.000
wire d[1] s1/g1/A 0.000
wire d[0] s0/g1/A 0.000
wire s3/r/Q q[3] 0.000
wire s2/r/Q q[2] 0.000
wire s1/r/Q q[1] 0.000
wire s0/r/Q q[0] 0.000
wire cb0/Z cb1/A 0.000
wire cb1/Z s0/r/CK 0.170
wire cb1/Z s1/r/CK 0.170
wire cb1/Z s2/r/CK 0.290
wire cb1/Z s3/r/CK 0.290
wire s0/g1/Z s0/g2/A 0.000
wire s0/g2/Z s0/r/D 0.000
wire s1/g1/Z s1/g2/A 0.000
wire s1/g2/Z s1/r/D 0.000
wire s2/g1/Z s2/g2/A 0.000
wire s2/g2/Z s2/r/D 0.000
wire s3/g1/Z s3/g2/A 0.000
wire s3/g2/Z s3/r/D 0.000
path cb0 A Z 17.000 19.000
path cb1 A Z 19.400 21.600
path s0/g1 A Z 14.000 13.000
path s0/g1 B Z 14.000 13.000
path s0/g2 A Z 9.900 9.000
path s0/r CK Q 60.400 65.400
path s1/g1 A Z 14.000 13.000
path s1/g1 B Z 14.000 13.000
path s1/g2 A Z 9.900 9.000
path s1/r CK Q 60.400 65.400
path s2/g1 A Z 14.000 13.000
path s2/g1 B Z 14.000 13.000
path s2/g2 A Z 9.900 9.000
path s2/r CK Q 60.400 65.400
path s3/g1 A Z 14.000 13.000
path s3/g1 B Z 14.000 13.000
path s3/g2 A Z 9.900 9.000
path s3/r CK Q 60.400 65.400
wires 26 paths 18 sum 872.720 largest 65.400
";

const WORDS: &[u8] = b"calc
--netlist
a.v
--top
blk
--spef
a.spef
--lib
a.lib
--input-slew
20
--port-load
5
";

#[test]
fn a_block_gets_its_delays(rt: HostRuntime) -> Result<(), Fail> {
    let calc = Plan {
        netlist: NETLIST,
        library: LIBRARY,
        ..Plan::of(WORDS, SPEF)
    };
    expects(&rt, &rt, &calc, 0, DELAYS, b"")?;
    let show = Plan::of(b"show\n--sdf\na.sdf\n", DELAYS);
    expects(&rt, &rt, &show, 0, ROWS, b"")?;
    Ok(())
}
