// Runs the published SHA-256 vectors and the limit rows of 01 that are not proved, and prints what the library answers to each.
#![tactic(auto)]

use form::Unwritten;
use std::fmt::{Display, Formatter, Write};
use std::{fmt, io};

// A hash as it is published: two digits for each of the 32 bytes.
#[derive(Clone, Copy)]
struct Digest([u8; 32]);

impl Display for Digest {
    fn fmt<W: Write>(&self, f: &mut Formatter<W>) -> fmt::Result {
        for b in &self.0 {
            write!(f, "{b:02x}")?;
        }
        Ok(())
    }
}

fn hash_row(rt: &impl Print, name: &str, text: &[u8]) -> io::Result<()> {
    println!(rt; "  {name}: {}", Digest(sha256::hash(text)))
}

fn hashes(rt: &impl Print) -> io::Result<()> {
    println!(rt; "SHA-256, FIPS 180-4")?;
    hash_row(rt, "empty", b"")?;
    // not published: the premise of the worked examples of crates/recount
    hash_row(rt, "32 zeros", &[0; 32])?;
    hash_row(rt, "abc", b"abc")?;
    hash_row(
        rt,
        "448 bits",
        b"abcdbcdecdefdefgefghfghighijhijkijkljklmklmnlmnomnopnopq",
    )?;
    hash_row(
        rt,
        "896 bits",
        b"abcdefghbcdefghicdefghijdefghijkefghijklfghijklmghijklmnhijklmnoijklmnopjklmnopqklmnopqrlmnopqrsmnopqrstnopqrstu",
    )
}

// The hash of so many letters a, at most 32,768.
fn letters(rt: &impl Print) -> io::Result<()> {
    let letters = [b'a'; 32768];
    for n in [55, 56, 63, 64, 65, 119, 120, letters.len()] {
        let hash = Digest(sha256::hash(&letters[..n.min(letters.len())]));
        println!(rt; "  {n} letters a: {hash}")?;
    }
    Ok(())
}

fn amounts(rt: &impl Print) -> io::Result<()> {
    println!(rt; "Amounts")?;
    for text in [
        "999999999999999999.9999",
        "1000000000000000000",
        "555555555555555555",
        "5.50",
    ] {
        match amount::read_amount(text.as_bytes()) {
            Ok(a) => {
                println!(rt;
                    "  {text}: {} units and {} ten-thousandths",
                    a.units, a.remainder
                )?;
            }
            Err(stop) => println!(rt; "  {text}: refused at {}", stop.at)?,
        }
    }
    Ok(())
}

// What the writer makes of an instant.
fn written(rt: &impl Print, ms: i64) -> io::Result<()> {
    let mut text = [0; 24];
    let refusal = match datetime::write_datetime(ms, &mut text) {
        Ok(_) => {
            print!(rt; "{ms} is written ")?;
            rt.write_all(&text)?;
            return println!(rt);
        }
        Err(Unwritten::NotInForm) => 1,
        Err(Unwritten::OutsideYears) => 22,
        Err(Unwritten::NoRoom) => 23,
    };
    println!(rt; "{ms} is refused with {refusal}")
}

// Texts, and the instants that they must read to if they are of the form.
fn instants(rt: &impl Print) -> io::Result<()> {
    println!(rt; "DateTimes, in milliseconds from 1970-01-01T00:00:00.000Z")?;
    for (text, instant) in [
        ("2000-02-29T00:00:00.000Z", 951782400000),
        ("1900-02-29T00:00:00.000Z", 0),
        ("1000-01-01T00:00:00.000Z", -30610224000000),
        ("9999-12-31T23:59:59.999Z", 253402300799999),
        ("9999-12-31T23:59:59.999-19:59", 253402372739999),
        ("1000-01-01T00:00:00.000+19:59", -30610295940000),
    ] {
        match datetime::read_datetime(text.as_bytes()) {
            Ok(ms) if ms == instant => {
                print!(rt; "  {text}: reads, and ")?;
                written(rt, ms)?;
            }
            Ok(_) => println!(rt; "  {text}: reads to another instant")?,
            Err(stop) => println!(rt; "  {text}: refused at {}", stop.at)?,
        }
    }
    for ms in [-30610224000001, 253402300800000] {
        print!(rt; "  ")?;
        written(rt, ms)?;
    }
    Ok(())
}

fn main(rt: HostRuntime) -> io::Result<()> {
    hashes(&rt)?;
    letters(&rt)?;
    amounts(&rt)?;
    instants(&rt)
}
