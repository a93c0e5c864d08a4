// The functions of `numbers` at the ends of their ranges, one line each: the arguments, then the results. The expected lines were
// worked apart from this code, in exact fractions and whole numbers. What it would catch: a NaN pattern let through or told apart,
// a range that excludes an end or takes in a NaN, cutting that rounds down, a sum that wraps, 23 or 25 bits kept, rounding where
// bits are to be cleared.
#![tactic(auto)]

use numbers::floats::{bits_of, float_of, is_finite, is_finite_or, is_within};
use numbers::whole;
use std::io;

// Bits: what they are written back as, whether finite, whether finite or +infinity, whether finite or -infinity.
// Zeros, subnormals, the ends of the normal numbers, infinities, and NaNs of both signs, quiet and signalling.
fn singles(rt: &impl Print) -> io::Result<()> {
    println!(rt; "singles")?;
    for bits in [
        0x00000000, 0x80000000, 0x00000001, 0x80000001, 0x007fffff, 0x00800000, 0x3f800000,
        0xc2c80000, 0x7f7fffff, 0xff7fffff, 0x7f800000, 0xff800000, 0x7f800001, 0xff800001,
        0x7fbfffff, 0x7fc00000, 0xffc00000, 0x7fffffff, 0xffffffff,
    ] {
        let x = float_of(bits);
        let finite = is_finite(x) as u8;
        let not_low = is_finite_or(x, false) as u8;
        let not_high = is_finite_or(x, true) as u8;
        let back = bits_of(x);
        println!(rt; "{bits:08x}: {back:08x} {finite} {not_low} {not_high}")?;
    }
    Ok(())
}

// Low end, high end, bits: whether within.
// PV_FTIME's 0 to 3600, TOTAL's 10^9 to either side, ALARM_HYS's 0 to the largest single, an empty range and NaN ends.
fn ranges(rt: &impl Print) -> io::Result<()> {
    println!(rt; "ranges")?;
    for (low, high, bits) in [
        (0x00000000, 0x45610000, 0x00000000),
        (0x00000000, 0x45610000, 0x80000000),
        (0x00000000, 0x45610000, 0x80000001),
        (0x00000000, 0x45610000, 0x00000001),
        (0x00000000, 0x45610000, 0x45610000),
        (0x00000000, 0x45610000, 0x45610001),
        (0x00000000, 0x45610000, 0x7f800000),
        (0x00000000, 0x45610000, 0x7fc00000),
        (0x00000000, 0x45610000, 0xff800001),
        (0xce6e6b28, 0x4e6e6b28, 0x4e6e6b28),
        (0xce6e6b28, 0x4e6e6b28, 0x4e6e6b29),
        (0xce6e6b28, 0x4e6e6b28, 0xce6e6b28),
        (0xce6e6b28, 0x4e6e6b28, 0xce6e6b29),
        (0xce6e6b28, 0x4e6e6b28, 0xff800000),
        (0xce6e6b28, 0x4e6e6b28, 0xffffffff),
        (0x00000000, 0x7f7fffff, 0x7f7fffff),
        (0x00000000, 0x7f7fffff, 0x7f800000),
        (0x00000000, 0x80000000, 0x80000000),
        (0x3f800000, 0x00000000, 0x3f000000),
        (0x7fc00000, 0x3f800000, 0x00000000),
        (0x00000000, 0x7fc00000, 0x00000000),
        (0xff800000, 0x7f800000, 0x7fc00000),
        (0xff800000, 0x7f800000, 0xff800000),
    ] {
        let within = is_within(float_of(bits), float_of(low), float_of(high)) as u8;
        println!(rt; "{low:08x} {high:08x} {bits:08x}: {within}")?;
    }
    Ok(())
}

// Bits: the number cut toward zero.
// -1.5625 gives -1. A NaN gives 0, and what an i64 cannot hold its nearest end.
fn cuts(rt: &impl Print) -> io::Result<()> {
    println!(rt; "cuts")?;
    for bits in [
        0x00000000, 0x80000000, 0x00000001, 0x80000001, 0x3f7fffff, 0xbf7fffff, 0x3f800000,
        0xbfc80000, 0x3fc80000, 0xbf800000, 0xc0000000, 0xbfffffff, 0x4b7fffff, 0xcb000001,
        0xcaffffff, 0x4e6e6b28, 0xd368d4a5, 0x5effffff, 0x5f000000, 0xdeffffff, 0xdf000000,
        0xdf000001, 0x7f7fffff, 0xff7fffff, 0x7f800000, 0xff800000, 0x7fc00000, 0xff800001,
    ] {
        let whole = whole::cut(float_of(bits));
        println!(rt; "{bits:08x}: {whole}")?;
    }
    Ok(())
}

// Number, limit: the number limited.
// Limits of 10^9 and 10^12, the ends of an i64, and a limit below 0, which counts as 0.
fn limits(rt: &impl Print) -> io::Result<()> {
    println!(rt; "limits")?;
    for (z, n) in [
        (999999999, 1000000000),
        (1000000000, 1000000000),
        (1000000001, 1000000000),
        (-1000000000, 1000000000),
        (-1000000001, 1000000000),
        (1000000000001, 1000000000000),
        (-1000000000001, 1000000000000),
        (0, 0),
        (1, 0),
        (-1, 0),
        (5, -3),
        (-5, i64::MIN),
        (i64::MAX, i64::MAX),
        (i64::MIN, i64::MAX),
        (i64::MIN, 1),
        (i64::MAX, 1),
    ] {
        let limited = whole::limited(z, n);
        println!(rt; "{z} {n}: {limited}")?;
    }
    Ok(())
}

// Two numbers, limit: their sum limited.
// The exact sum is limited, also where it lies beyond an i64.
fn sums(rt: &impl Print) -> io::Result<()> {
    println!(rt; "sums")?;
    for (a, b, n) in [
        (2, 3, 10),
        (7, -9, 10),
        (7, 9, 10),
        (-7, -9, 10),
        (999999999999, 1, 1000000000000),
        (1000000000000, 1, 1000000000000),
        (-1000000000000, -1000000000, 1000000000000),
        (1000000000000, -1000000000, 1000000000000),
        (i64::MAX, 1, i64::MAX),
        (1, i64::MAX, 1000000000000),
        (i64::MAX, i64::MAX, i64::MAX),
        (i64::MIN, -1, i64::MAX),
        (-1, i64::MIN, 1000000000000),
        (i64::MIN, i64::MIN, i64::MAX),
        (i64::MIN, i64::MAX, 10),
        (i64::MAX, i64::MIN, i64::MAX),
        (i64::MIN, 0, i64::MAX),
        (0, i64::MIN, i64::MAX),
        (i64::MIN, 1, i64::MAX),
        (3, 4, -1),
    ] {
        let limited = whole::limited_sum(a, b, n);
        println!(rt; "{a} {b} {n}: {limited}")?;
    }
    Ok(())
}

// Magnitude: its 24 highest bits as a float.
// The 24 highest bits, counted from the leading one; the others are cleared and not rounded.
fn highest_bits(rt: &impl Print) -> io::Result<()> {
    println!(rt; "highest bits")?;
    for m in [
        0,
        1,
        3,
        16777215,
        16777216,
        16777217,
        16777218,
        16777219,
        33554431,
        33554432,
        33554435,
        33554436,
        67108863,
        1000000000000,
        1099511627775,
        1099511627776,
        9223372036854775807,
        9223372036854775808,
        9223373136366403583,
        18446742974197923839,
        18446744073709551615,
    ] {
        let bits = bits_of(whole::highest(m));
        println!(rt; "{m}: {bits:08x}")?;
    }
    Ok(())
}

// Total: the 24 highest bits of its magnitude as a float, and that divided by 1000 as TOT gives it.
// Totals of either sign, with the value that TOT gives: 46831270 for 16,777,219, where rounding would give 46831271.
fn totals(rt: &impl Print) -> io::Result<()> {
    println!(rt; "totals")?;
    for z in [
        0,
        1,
        -1,
        16777217,
        16777219,
        16777251,
        -16777217,
        -16777219,
        1000000000000,
        -1000000000000,
        999999995904,
        -1099511627775,
        i64::MAX,
        i64::MIN,
        -9223372036854775807,
    ] {
        let value = whole::value_of(z);
        let bits = bits_of(value);
        let given = bits_of(value / 1000.0);
        println!(rt; "{z}: {bits:08x} {given:08x}")?;
    }
    Ok(())
}

fn main(rt: HostRuntime) -> io::Result<()> {
    singles(&rt)?;
    ranges(&rt)?;
    cuts(&rt)?;
    limits(&rt)?;
    sums(&rt)?;
    highest_bits(&rt)?;
    totals(&rt)
}
