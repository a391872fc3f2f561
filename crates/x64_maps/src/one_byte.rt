//! The opcodes of one byte (Intel manual, volume 2, appendix A, table A-2, "One-byte Opcode Map"):
//! rows by the opcode's high digit, columns by its low one.

use crate::cell::Row;
use crate::words::{
    __, AIy, G1A, G1b, G1s, G1z, G2, G2b, G2bi, G2i, G3, G3b, G4, G5, G11, G11b, IJy, Ib, Iy, Iz,
    Jy, ME, MEG, MG, MbG, Me, Meg, Mg, Mo, MzG, NONE, OA, OS, Oq, SP, STOP, Wa, Wd, Ws, X87, bA,
    bS, bi, bj, bjC, bk, bo, mG, nSP, qA, tS, vO, wtS, zA, zS, zc, zk,
};

/// The opcodes of one byte.
pub static ONE_BYTE: [[Row; 16]; 16] = [
    // 00
    [
        Me, ME, Mg, MG, bA, zA, __, __, Me, ME, Mg, MG, bA, zA, __, __,
    ],
    // 10
    [
        Me, ME, Mg, MG, bA, zA, __, __, Me, ME, Mg, MG, bA, zA, __, __,
    ],
    // 20
    [
        Me, ME, Mg, MG, bA, zA, __, __, Me, ME, Mg, MG, bA, zA, __, __,
    ],
    // 30
    [
        Me, ME, Mg, MG, bA, zA, __, __, Mo, Mo, Mo, Mo, Ib, Iz, __, __,
    ],
    // 40
    [
        __, __, __, __, __, __, __, __, __, __, __, __, __, __, __, __,
    ],
    // 50
    [
        Ws, Ws, Ws, Ws, Ws, Ws, Ws, Ws, OS, OS, OS, OS, OS, OS, OS, OS,
    ],
    // 60
    [
        __, __, __, MG, __, __, __, __, zS, MzG, bS, MbG, Jy, Jy, Iy, Iy,
    ],
    // 70
    [
        bj, bj, bj, bj, bj, bj, bj, bj, bj, bj, bj, bj, bj, bj, bj, bj,
    ],
    // 80
    [
        G1b, G1z, __, G1s, Mo, Mo, Meg, MEG, Me, ME, Mg, MG, ME, mG, Mo, G1A,
    ],
    // 90
    [
        OA, OA, OA, OA, OA, OA, OA, OA, Wa, Wd, __, NONE, Ws, Ws, NONE, Wa,
    ],
    // A0
    [
        qA, qA, Oq, Oq, IJy, IJy, IJy, IJy, Ib, Iz, Jy, Jy, AIy, AIy, Jy, Jy,
    ],
    // B0
    [
        bo, bo, bo, bo, bo, bo, bo, bo, vO, vO, vO, vO, vO, vO, vO, vO,
    ],
    // C0
    [
        G2bi, G2i, wtS, tS, __, __, G11b, G11, nSP, SP, wtS, tS, NONE, bi, __, tS,
    ],
    // D0
    [
        G2b, G2, G2b, G2, __, __, __, Wa, Mo, Mo, Mo, Mo, Mo, Mo, Mo, X87,
    ],
    // E0
    [
        bjC, bjC, bjC, bj, bA, bA, Ib, Ib, zc, zk, __, bk, Wa, Wa, NONE, NONE,
    ],
    // F0
    [
        __, NONE, __, __, STOP, NONE, G3b, G3, NONE, NONE, NONE, NONE, NONE, NONE, G4, G5,
    ],
];
