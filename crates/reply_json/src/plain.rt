//! Whether bytes stand in a JSON text as they are, tested up to 16 at a time. Each test is true only where they do.
//! Two tests that overlap take what does not come out even.
ghost use Rattle.std.specs.Prelude.{◌≡◌, ◌+◌, ◌<◌, ◌≤◌, length};
ghost use Rattle.std.specs.Bool.{OnTrue};
ghost use Rattle.json.specs.Print.{escape};
ghost use Rattle.json.specs.Written.{PlainBetween};

use std::simd::prelude::*;

/// Whether 4 bytes, from a place on, have no escape.
#[inline(always)]
fn are_4_plain(text: &[u8], at: usize) -> bool
    requires { at + 4 ≤ length text.now }
    ensures { OnTrue result (PlainBetween text.now at (at + 4)) }
{
    let bytes = u8x4::from_slice(&text[at..]);
    (bytes.simd_eq(u8x4::splat(b'"'))
        | bytes.simd_eq(u8x4::splat(b'\\'))
        | bytes.simd_lt(u8x4::splat(b' '))).to_bitmask()
        == 0
}

/// Whether 8 bytes, from a place on, have no escape.
#[inline(always)]
fn are_8_plain(text: &[u8], at: usize) -> bool
    requires { at + 8 ≤ length text.now }
    ensures { OnTrue result (PlainBetween text.now at (at + 8)) }
{
    let bytes = u8x8::from_slice(&text[at..]);
    (bytes.simd_eq(u8x8::splat(b'"'))
        | bytes.simd_eq(u8x8::splat(b'\\'))
        | bytes.simd_lt(u8x8::splat(b' '))).to_bitmask()
        == 0
}

/// Whether 16 bytes, from a place on, have no escape.
#[inline(always)]
fn are_16_plain(text: &[u8], at: usize) -> bool
    requires { at + 16 ≤ length text.now }
    ensures { OnTrue result (PlainBetween text.now at (at + 16)) }
{
    let bytes = u8x16::from_slice(&text[at..]);
    (bytes.simd_eq(u8x16::splat(b'"'))
        | bytes.simd_eq(u8x16::splat(b'\\'))
        | bytes.simd_lt(u8x16::splat(b' '))).to_bitmask()
        == 0
}

/// Whether a few bytes have no escape, byte by byte.
#[inline(always)]
fn are_few_plain(text: &[u8]) -> bool
    ensures { OnTrue result (PlainBetween text.now 0 (length text.now)) }
{
    for &byte in text {
        if byte == b'"' || byte == b'\\' || byte < b' ' {
            return false;
        }
    }
    true
}

/// Whether fewer than 16 bytes have no escape.
#[inline(always)]
fn are_under_16_plain(text: &[u8]) -> bool
    requires { length text.now < 16 }
    ensures { OnTrue result (PlainBetween text.now 0 (length text.now)) }
{
    let len = text.len();
    if len >= 8 {
        are_8_plain(text, 0) && are_8_plain(text, len - 8)
    } else if len >= 4 {
        are_4_plain(text, 0) && are_4_plain(text, len - 4)
    } else {
        are_few_plain(text)
    }
}

/// Whether 16 bytes or more have no escape.
#[inline(always)]
fn are_many_plain(text: &[u8]) -> bool
    requires { 16 ≤ length text.now }
    ensures { OnTrue result (PlainBetween text.now 0 (length text.now)) }
{
    let mut at = 0;
    while text.len() - at > 16 {
        if !are_16_plain(text, at) {
            return false;
        }
        at += 16;
    }
    are_16_plain(text, text.len() - 16)
}

/// Whether bytes have no escape: where this is true, they stand in a JSON text as they are.
#[inline(always)]
#[tactic(auto, using(json::proofs::Printed::Plain::escape_on_plain))]
pub fn are_plain(text: &[u8]) -> bool
    ensures { OnTrue result (escape text.now ≡ text.now) }
{
    if text.len() < 16 {
        are_under_16_plain(text)
    } else {
        are_many_plain(text)
    }
}
