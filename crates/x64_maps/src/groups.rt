//! The opcodes of which ModRM's reg field chooses (Intel manual, volume 2, appendix A, table A-6,
//! "Opcode Extensions for One- and Two-byte Opcodes by Group Number").

use crate::cell::Row;
use crate::words::{
    __, MA, MAD, MADC, ME, MES, MK, ML, MN, MS, Mb, MbE, MbY, Mbe, Me, Mm, Mo, Mz, MzE, mAD, mK,
    mL, rbW, rbY,
};

/// The rows by ModRM's reg field: of the forms in memory, then of those with a register.
pub static GROUPS: [[[Row; 8]; 2]; 36] = [
    // One8
    [
        [Mbe, Mbe, Mbe, Mbe, Mbe, Mbe, Mbe, Mb],
        [Mbe, Mbe, Mbe, Mbe, Mbe, Mbe, Mbe, Mb],
    ],
    // One
    [
        [MzE, MzE, MzE, MzE, MzE, MzE, MzE, Mz],
        [MzE, MzE, MzE, MzE, MzE, MzE, MzE, Mz],
    ],
    // OneSigned
    [
        [MbE, MbE, MbE, MbE, MbE, MbE, MbE, Mb],
        [MbE, MbE, MbE, MbE, MbE, MbE, MbE, Mb],
    ],
    // OneA
    [
        [MES, __, __, __, __, __, __, __],
        [MES, __, __, __, __, __, __, __],
    ],
    // Two8Immediate
    [
        [Mbe, Mbe, Mbe, Mbe, Mbe, Mbe, __, Mbe],
        [Mbe, Mbe, Mbe, Mbe, Mbe, Mbe, __, Mbe],
    ],
    // TwoImmediate
    [
        [MbE, MbE, MbE, MbE, MbE, MbE, __, MbE],
        [MbE, MbE, MbE, MbE, MbE, MbE, __, MbE],
    ],
    // Two8
    [
        [Me, Me, Me, Me, Me, Me, __, Me],
        [Me, Me, Me, Me, Me, Me, __, Me],
    ],
    // Two
    [
        [ME, ME, ME, ME, ME, ME, __, ME],
        [ME, ME, ME, ME, ME, ME, __, ME],
    ],
    // Three8
    [
        [Mb, __, Me, Me, MA, MA, MA, MA],
        [Mb, __, Me, Me, MA, MA, MA, MA],
    ],
    // Three
    [
        [Mz, __, ME, ME, MAD, MAD, MAD, MAD],
        [Mz, __, ME, ME, MAD, MAD, MAD, MAD],
    ],
    // Four
    [
        [Me, Me, __, __, __, __, __, __],
        [Me, Me, __, __, __, __, __, __],
    ],
    // Five
    [
        [ME, ME, ML, mL, MK, mK, MS, __],
        [ME, ME, ML, mL, MK, mK, MS, __],
    ],
    // Six
    [
        [ME, ME, Mo, Mo, Mo, Mo, __, __],
        [ME, ME, Mo, Mo, Mo, Mo, __, __],
    ],
    // Seven
    [
        [Mo, Mo, Mo, Mo, Mo, Mo, Mo, Mo],
        [MADC, MADC, MADC, __, ME, MAD, Mo, MADC],
    ],
    // Eight
    [
        [__, __, __, __, Mb, MbE, MbE, MbE],
        [__, __, __, __, Mb, MbE, MbE, MbE],
    ],
    // Nine
    [
        [__, mAD, __, Mm, Mm, Mm, Mo, Mo],
        [__, __, __, __, __, __, ME, ME],
    ],
    // Eleven8
    [
        [Mbe, __, __, __, __, __, __, __],
        [Mbe, __, __, __, __, __, __, __],
    ],
    // Eleven
    [
        [MzE, __, __, __, __, __, __, __],
        [MzE, __, __, __, __, __, __, __],
    ],
    // Twelve
    [
        [__, __, __, __, __, __, __, __],
        [__, __, rbW, __, rbW, __, rbW, __],
    ],
    // TwelveVex
    [
        [__, __, __, __, __, __, __, __],
        [__, __, rbY, __, rbY, __, rbY, __],
    ],
    // TwelveEvex
    [
        [__, __, MbY, __, MbY, __, MbY, __],
        [__, __, MbY, __, MbY, __, MbY, __],
    ],
    // Thirteen
    [
        [__, __, __, __, __, __, __, __],
        [__, __, rbW, __, rbW, __, rbW, __],
    ],
    // ThirteenVex
    [
        [__, __, __, __, __, __, __, __],
        [__, __, rbY, __, rbY, __, rbY, __],
    ],
    // ThirteenEvex
    [
        [MbY, MbY, MbY, __, MbY, __, MbY, __],
        [MbY, MbY, MbY, __, MbY, __, MbY, __],
    ],
    // Fourteen
    [
        [__, __, __, __, __, __, __, __],
        [__, __, rbW, __, __, __, rbW, __],
    ],
    // Fourteen66
    [
        [__, __, __, __, __, __, __, __],
        [__, __, rbW, rbW, __, __, rbW, rbW],
    ],
    // FourteenVex
    [
        [__, __, __, __, __, __, __, __],
        [__, __, rbY, rbY, __, __, rbY, rbY],
    ],
    // FourteenEvex
    [
        [__, __, MbY, MbY, __, __, MbY, MbY],
        [__, __, MbY, MbY, __, __, MbY, MbY],
    ],
    // Fifteen
    [
        [Mo, Mo, Mo, Mo, Mo, Mo, Mo, Mo],
        [__, __, __, __, __, Mo, Mo, Mo],
    ],
    // Fifteen66
    [
        [__, __, __, __, __, __, Mo, Mo],
        [__, __, __, __, __, __, Mo, __],
    ],
    // FifteenF3
    [
        [__, __, __, __, Mo, __, Mo, __],
        [ME, ME, Mo, Mo, Mo, Mo, Mo, __],
    ],
    // FifteenF2
    [
        [__, __, __, __, __, __, __, __],
        [__, __, __, __, __, __, Mo, __],
    ],
    // FifteenVex
    [
        [__, __, Mo, Mo, __, __, __, __],
        [__, __, __, __, __, __, __, __],
    ],
    // Seventeen
    [
        [__, MN, MN, MN, __, __, __, __],
        [__, MN, MN, MN, __, __, __, __],
    ],
    // Shadow
    [
        [Mo, Mo, Mo, Mo, Mo, Mo, Mo, Mo],
        [Mo, ME, Mo, Mo, Mo, Mo, Mo, Mo],
    ],
    // Status
    [
        [Mo, Mo, Mo, Mo, Mo, Mo, Mo, Mo],
        [Mo, Mo, Mo, Mo, MA, Mo, Mo, Mo],
    ],
];
