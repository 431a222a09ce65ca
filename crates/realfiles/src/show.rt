// A HEX file read for a PIC16F1459: its name, the answer's number, line and column, and a line for each word that it gives.
use device::{Device, READING_TAIL};
use std::fs::Files;
use std::{fs, io};
use words::{CONFIG_BASE, NOT_GIVEN, WordAddress};

const PIC16F1459: Device = Device {
    id: 0x3023,
    words: 8192,
    row: 32,
    mask1: 0x3eff,
    mask2: 0x3ff3,
    idmask: 0x3fff,
};

// Reads the file of this name and prints what came of it.
pub(crate) fn file<R: Files + Print>(rt: &R, name: &str) -> io::Result<()> {
    let mut text = [0u8; 65536];
    let n = files::read(fs::open(rt, name).ok(), &mut text);
    let mut image = [NOT_GIVEN; 8192 + READING_TAIL];
    match hexread::read_hex(PIC16F1459, &text[..n], &mut image) {
        Ok(()) => println!(rt; "{name}\t0\t0\t0")?,
        Err(misread) => println!(rt;
            "{name}\t{}\t{}\t{}",
            misread.refusal.number(),
            misread.line,
            misread.column
        )?,
    }
    all(rt, &image)
}

// Every entry that is given.
fn all(rt: &impl Print, image: &[u16]) -> io::Result<()> {
    for (i, word) in image.iter().enumerate() {
        if *word != NOT_GIVEN {
            entry(rt, i, *word)?;
        }
    }
    Ok(())
}

// The address of an entry, and its word.
fn entry(rt: &impl Print, i: usize, word: u16) -> io::Result<()> {
    match words::address::address_of(WordAddress(CONFIG_BASE), 8192, READING_TAIL as u8, i) {
        Some(a) => println!(rt; "\t{:04X}\t{word:04X}", a.0),
        None => Ok(()),
    }
}
