//! Words with their text, for each mnemonic: the words are those that GNU as 2.40 makes of the texts.

use rv_text::line;
use std::test::Fail;

const TEXTS: [(u32, &str); 115] = [
    (0x0002_02b7, "lui x5, 0x20"),
    (0xffff_ffb7, "lui x31, 0xfffff"),
    (0x0000_00b7, "lui x1, 0x0"),
    (0x0100_0897, "auipc x17, 0x1000"),
    (0x0040_006f, "jal x0, 4"),
    (0x8000_00ef, "jal x1, -1048576"),
    (0x7fff_f16f, "jal x2, 1048574"),
    (0x00d2_8067, "jalr x0, 13(x5)"),
    (0x800f_80e7, "jalr x1, -2048(x31)"),
    (0x0005_0a63, "beq x10, x0, 20"),
    (0xfe15_9ee3, "bne x11, x1, -4"),
    (0x7e26_4fe3, "blt x12, x2, 4094"),
    (0x8036_d063, "bge x13, x3, -4096"),
    (0x0047_60e3, "bltu x14, x4, 2048"),
    (0xfe57_ffe3, "bgeu x15, x5, -2"),
    (0x0081_0303, "lb x6, 8(x2)"),
    (0xfff1_9383, "lh x7, -1(x3)"),
    (0x7ff2_2403, "lw x8, 2047(x4)"),
    (0x8002_b483, "ld x9, -2048(x5)"),
    (0x0003_4503, "lbu x10, 0(x6)"),
    (0x0013_d583, "lhu x11, 1(x7)"),
    (0xfe04_6603, "lwu x12, -32(x8)"),
    (0x0052_80a3, "sb x5, 1(x5)"),
    (0x8063_9023, "sh x6, -2048(x7)"),
    (0x7e74_afa3, "sw x7, 2047(x9)"),
    (0xfc85_bfa3, "sd x8, -33(x11)"),
    (0x05d0_0893, "addi x17, x0, 93"),
    (0xfff0_a813, "slti x16, x1, -1"),
    (0x7ff1_3793, "sltiu x15, x2, 2047"),
    (0x8001_c713, "xori x14, x3, -2048"),
    (0x0002_6693, "ori x13, x4, 0"),
    (0x0ff2_f613, "andi x12, x5, 255"),
    (0x03f4_9413, "slli x8, x9, 63"),
    (0x0014_d413, "srli x8, x9, 1"),
    (0x4204_d413, "srai x8, x9, 32"),
    (0xffe2_019b, "addiw x3, x4, -2"),
    (0x01fe_9f1b, "slliw x30, x29, 31"),
    (0x000e_df1b, "srliw x30, x29, 0"),
    (0x410e_df1b, "sraiw x30, x29, 16"),
    (0x0073_02b3, "add x5, x6, x7"),
    (0x40c4_8333, "sub x6, x9, x12"),
    (0x0116_13b3, "sll x7, x12, x17"),
    (0x0167_a433, "slt x8, x15, x22"),
    (0x01b9_34b3, "sltu x9, x18, x27"),
    (0x000a_c533, "xor x10, x21, x0"),
    (0x005c_55b3, "srl x11, x24, x5"),
    (0x40ad_d633, "sra x12, x27, x10"),
    (0x00ff_66b3, "or x13, x30, x15"),
    (0x0140_f733, "and x14, x1, x20"),
    (0x0392_07b3, "mul x15, x4, x25"),
    (0x03e3_9833, "mulh x16, x7, x30"),
    (0x0235_28b3, "mulhsu x17, x10, x3"),
    (0x0286_b933, "mulhu x18, x13, x8"),
    (0x02d8_49b3, "div x19, x16, x13"),
    (0x0329_da33, "divu x20, x19, x18"),
    (0x037b_6ab3, "rem x21, x22, x23"),
    (0x03cc_fb33, "remu x22, x25, x28"),
    (0x001e_0bbb, "addw x23, x28, x1"),
    (0x406f_8c3b, "subw x24, x31, x6"),
    (0x00b1_1cbb, "sllw x25, x2, x11"),
    (0x0102_dd3b, "srlw x26, x5, x16"),
    (0x4154_5dbb, "sraw x27, x8, x21"),
    (0x03a5_8e3b, "mulw x28, x11, x26"),
    (0x03f7_4ebb, "divw x29, x14, x31"),
    (0x0248_df3b, "divuw x30, x17, x4"),
    (0x029a_6fbb, "remw x31, x20, x9"),
    (0x02eb_f03b, "remuw x0, x23, x14"),
    (0x1002_a32f, "lr.w x6, (x5)"),
    (0x1002_b32f, "lr.d x6, (x5)"),
    (0x1404_33af, "lr.d.aq x7, (x8)"),
    (0x1862_a52f, "sc.w x10, x6, (x5)"),
    (0x1862_b52f, "sc.d x10, x6, (x5)"),
    (0x1a21_a0af, "sc.w.rl x1, x2, (x3)"),
    (0x08ba_a0af, "amoswap.w x1, x11, (x21)"),
    (0x08cb_312f, "amoswap.d x2, x12, (x22)"),
    (0x00cb_212f, "amoadd.w x2, x12, (x22)"),
    (0x04db_b1af, "amoadd.d.aq x3, x13, (x23)"),
    (0x20db_a1af, "amoxor.w x3, x13, (x23)"),
    (0x22ec_322f, "amoxor.d.rl x4, x14, (x24)"),
    (0x60ec_222f, "amoand.w x4, x14, (x24)"),
    (0x66fc_b2af, "amoand.d.aqrl x5, x15, (x25)"),
    (0x40fc_a2af, "amoor.w x5, x15, (x25)"),
    (0x410d_332f, "amoor.d x6, x16, (x26)"),
    (0x810d_232f, "amomin.w x6, x16, (x26)"),
    (0x851d_b3af, "amomin.d.aq x7, x17, (x27)"),
    (0xa11d_a3af, "amomax.w x7, x17, (x27)"),
    (0xa32e_342f, "amomax.d.rl x8, x18, (x28)"),
    (0xc12e_242f, "amominu.w x8, x18, (x28)"),
    (0xc73e_b4af, "amominu.d.aqrl x9, x19, (x29)"),
    (0xe13e_a4af, "amomaxu.w x9, x19, (x29)"),
    (0xe14f_352f, "amomaxu.d x10, x20, (x30)"),
    (0x0ff0_000f, "fence 15, 15"),
    (0x0810_000f, "fence 8, 1"),
    (0x0000_100f, "fence.i"),
    (0x0000_0073, "ecall"),
    (0x0010_0073, "ebreak"),
    (0x8330_000f, "fence 3, 3"),
    (0x0ff2_928f, "fence.i"),
    (0x0000_0000, ".word 0x00000000"),
    (0xffff_ffff, ".word 0xffffffff"),
    (0x03f4_941b, ".word 0x03f4941b"),
    (0x4209_551b, ".word 0x4209551b"),
    (0x0209_d01b, ".word 0x0209d01b"),
    (0x1012_a32f, ".word 0x1012a32f"),
    (0x1012_b32f, ".word 0x1012b32f"),
    (0x0420_81b3, ".word 0x042081b3"),
    (0x00d2_9067, ".word 0x00d29067"),
    (0x0062_a063, ".word 0x0062a063"),
    (0x0030_b00f, ".word 0x0030b00f"),
    (0x0020_0073, ".word 0x00200073"),
    (0x1050_0073, ".word 0x10500073"),
    (0x1002_c32f, ".word 0x1002c32f"),
    (0x2802_a32f, ".word 0x2802a32f"),
    (0x0000_702f, ".word 0x0000702f"),
    (0x4420_9513, ".word 0x44209513"),
];

#[test]
fn each_mnemonic_has_its_text(rt: HostRuntime) -> Result<(), Fail> {
    for (word, text) in TEXTS.iter() {
        let mut out = Vec::new(rt.alloc());
        line(0x10000, *word, &mut out)?;
        let expected = format!(in rt.alloc(); "0000000000010000 {word:08x} {text}\n")?;
        assert_eq!(rt; out.as_slice(), expected.as_bytes(), "{text}");
    }
    Ok(())
}

#[test]
fn lines_follow_one_another(rt: HostRuntime) -> Result<(), Fail> {
    let mut out = Vec::new(rt.alloc());
    line(0x10000, 0x05d0_0893, &mut out)?;
    line(0x10004, 0x0000_0513, &mut out)?;
    line(0x10008, 0x0000_0073, &mut out)?;
    let expected = b"0000000000010000 05d00893 addi x17, x0, 93
0000000000010004 00000513 addi x10, x0, 0
0000000000010008 00000073 ecall
";
    assert_eq!(rt; out.as_slice(), expected.as_slice());
    Ok(())
}
