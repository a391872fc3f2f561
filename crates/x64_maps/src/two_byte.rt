//! The opcodes after 0F (Intel manual, volume 2, appendix A, table A-3, "Two-byte Opcode Map"):
//! rows by the opcode's high digit, columns by its low one.

use crate::cell::Row;
use crate::words::{
    __, ABCD, AD, CRA, G6, G7, G8, G9, ME, MEA, MEG, MG, MV, MW, MbE, MbV, Me, MeA, Meg, Mm, Mo,
    Mr, NONE, P1E, P2C, P7E, P41, P44, P71, P72, P73, P77, P78, P79, P90, P91, P92, P93, P98, PAE,
    PD6, SC, STOP, Wo, Ws, a, aE, mG, rG, rbG, zj,
};

/// The opcodes after 0F.
pub static TWO_BYTE: [[Row; 16]; 16] = [
    // 00
    [
        G6, G7, MG, MG, __, CRA, NONE, STOP, NONE, NONE, __, STOP, __, Mo, __, __,
    ],
    // 10
    [
        MV, MW, MV, Mm, MV, MV, MV, Mm, Mo, Mo, Mo, Mo, Mo, Mo, P1E, Mo,
    ],
    // 20
    [
        aE, aE, a, a, __, __, __, __, MV, MW, MV, Mm, P2C, P2C, Mo, Mo,
    ],
    // 30
    [
        NONE, AD, AD, AD, SC, STOP, __, ABCD, __, __, __, __, __, __, __, __,
    ],
    // 40
    [
        MG, P41, P41, MG, P44, P41, P41, P41, MG, MG, P41, P41, MG, MG, MG, MG,
    ],
    // 50
    [
        rG, MV, MV, MV, MV, MV, MV, MV, MV, MV, MV, MV, MV, MV, MV, MV,
    ],
    // 60
    [
        MV, MV, MV, MV, MV, MV, MV, MV, MV, MV, MV, MV, MV, MV, MV, MV,
    ],
    // 70
    [
        MbV, P71, P72, P73, MV, MV, MV, P77, P78, P79, MV, MV, MV, MV, P7E, MW,
    ],
    // 80
    [
        zj, zj, zj, zj, zj, zj, zj, zj, zj, zj, zj, zj, zj, zj, zj, zj,
    ],
    // 90
    [
        P90, P91, P92, P93, Me, Me, Me, Me, P98, P98, Me, Me, Me, Me, Me, Me,
    ],
    // A0
    [
        Ws, Ws, ABCD, Mo, MbE, ME, __, __, Ws, Ws, STOP, ME, MbE, ME, PAE, MG,
    ],
    // B0
    [
        MeA, MEA, mG, ME, mG, mG, MG, MG, MG, __, G8, ME, MG, MG, MG, MG,
    ],
    // C0
    [
        Meg, MEG, MbV, Mm, MbV, rbG, MbV, G9, Wo, Wo, Wo, Wo, Wo, Wo, Wo, Wo,
    ],
    // D0
    [
        MV, MV, MV, MV, MV, MV, PD6, rG, MV, MV, MV, MV, MV, MV, MV, MV,
    ],
    // E0
    [
        MV, MV, MV, MV, MV, MV, MV, Mm, MV, MV, MV, MV, MV, MV, MV, MV,
    ],
    // F0
    [
        MV, MV, MV, MV, MV, MV, MV, Mr, MV, MV, MV, MV, MV, MV, MV, __,
    ],
];

/// The spellings of the opcodes after 0F, eight in a row: a hexadecimal digit each for EVEX,
/// VEX.256, VEX.128 and legacy, whose bits are F2, F3, 66 and no mandatory prefix.
pub static TWO_BYTE_SPELLINGS: [[u16; 8]; 32] = [
    // 00
    [
        0x000F, 0x000F, 0x000F, 0x000F, 0x0000, 0x000F, 0x000F, 0x000F,
    ],
    // 08
    [
        0x000F, 0x000F, 0x0000, 0x000F, 0x0000, 0x000F, 0x0000, 0x0000,
    ],
    // 10
    [
        0xFFFF, 0xFFFF, 0xFCFF, 0x3033, 0x3333, 0x3333, 0x7477, 0x3033,
    ],
    // 18
    [
        0x000F, 0x000F, 0x000F, 0x000F, 0x000F, 0x000F, 0x000F, 0x000F,
    ],
    // 20
    [
        0x000F, 0x000F, 0x000F, 0x000F, 0x0000, 0x0000, 0x0000, 0x0000,
    ],
    // 28
    [
        0x3333, 0x3333, 0xCCCF, 0x3333, 0xCCCF, 0xCCCF, 0x3333, 0x3333,
    ],
    // 30
    [
        0x000F, 0x000F, 0x000F, 0x000F, 0x000F, 0x000F, 0x0000, 0x0001,
    ],
    // 38
    [
        0x0000, 0x0000, 0x0000, 0x0000, 0x0000, 0x0000, 0x0000, 0x0000,
    ],
    // 40
    [
        0x000F, 0x030F, 0x030F, 0x000F, 0x003F, 0x030F, 0x030F, 0x030F,
    ],
    // 48
    [
        0x000F, 0x000F, 0x030F, 0x030F, 0x000F, 0x000F, 0x000F, 0x000F,
    ],
    // 50
    [
        0x0333, 0xFFFF, 0x0555, 0x0555, 0x3333, 0x3333, 0x3333, 0x3333,
    ],
    // 58
    [
        0xFFFF, 0xFFFF, 0xFFFF, 0x7777, 0xFFFF, 0xFFFF, 0xFFFF, 0xFFFF,
    ],
    // 60
    [
        0x2223, 0x2223, 0x2223, 0x2223, 0x2223, 0x2223, 0x2223, 0x2223,
    ],
    // 68
    [
        0x2223, 0x2223, 0x2223, 0x2223, 0x2222, 0x2222, 0x2023, 0xE667,
    ],
    // 70
    [
        0xEEEF, 0x2223, 0x2223, 0x2223, 0x2223, 0x2223, 0x2223, 0x0111,
    ],
    // 78
    [
        0xF001, 0xF001, 0xE000, 0xE000, 0x0AAA, 0x0AAA, 0x6067, 0xE667,
    ],
    // 80
    [
        0x000F, 0x000F, 0x000F, 0x000F, 0x000F, 0x000F, 0x000F, 0x000F,
    ],
    // 88
    [
        0x000F, 0x000F, 0x000F, 0x000F, 0x000F, 0x000F, 0x000F, 0x000F,
    ],
    // 90
    [
        0x003F, 0x003F, 0x00BF, 0x00BF, 0x000F, 0x000F, 0x000F, 0x000F,
    ],
    // 98
    [
        0x003F, 0x003F, 0x000F, 0x000F, 0x000F, 0x000F, 0x000F, 0x000F,
    ],
    // A0
    [
        0x000F, 0x000F, 0x000F, 0x000F, 0x000F, 0x000F, 0x0000, 0x0000,
    ],
    // A8
    [
        0x000F, 0x000F, 0x000F, 0x000F, 0x000F, 0x000F, 0x001F, 0x000F,
    ],
    // B0
    [
        0x000F, 0x000F, 0x000F, 0x000F, 0x000F, 0x000F, 0x000F, 0x000F,
    ],
    // B8
    [
        0x0004, 0x0000, 0x000F, 0x000F, 0x000F, 0x000F, 0x000F, 0x000F,
    ],
    // C0
    [
        0x000F, 0x000F, 0xFFFF, 0x0001, 0x2023, 0x2023, 0x3333, 0x000F,
    ],
    // C8
    [
        0x000F, 0x000F, 0x000F, 0x000F, 0x000F, 0x000F, 0x000F, 0x000F,
    ],
    // D0
    [
        0x0AAA, 0x2223, 0x2223, 0x2223, 0x2223, 0x2223, 0x202E, 0x0223,
    ],
    // D8
    [
        0x2223, 0x2223, 0x2223, 0x2223, 0x2223, 0x2223, 0x2223, 0x2223,
    ],
    // E0
    [
        0x2223, 0x2223, 0x2223, 0x2223, 0x2223, 0x2223, 0xEEEE, 0x2223,
    ],
    // E8
    [
        0x2223, 0x2223, 0x2223, 0x2223, 0x2223, 0x2223, 0x2223, 0x2223,
    ],
    // F0
    [
        0x0888, 0x2223, 0x2223, 0x2223, 0x2223, 0x2223, 0x2223, 0x0023,
    ],
    // F8
    [
        0x2223, 0x2223, 0x2223, 0x2223, 0x2223, 0x2223, 0x2223, 0x0000,
    ],
];
