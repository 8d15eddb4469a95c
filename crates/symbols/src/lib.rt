// Document 01, "From bits to cells": bits, symbols and cells of written bytes, and the reading of cells.
#![tactic(auto)]

ghost use Rattle.std.specs.Prelude.{◌≡◌, ◌≤◌};
ghost use Rattle.symbols.specs.machine.Step.{fresh_reading, shifted, is_whole, code_word, closed};
ghost use Rattle.symbols.specs.machine.Step.{empty_reading, stray_now, place_now};

// A cell as it is read: of 2, 3 or 4 units.
#[derive(Clone, Copy, PartialEq, Eq)]
pub enum Cell {
    Short,
    Medium,
    Long,
}

// Where the reading of cells stands: a shift register of half cells, as a data separator has one. A transition is a 1,
// and a cell of so many units puts the next 1 so many half cells after the last.
#[derive(Clone, Copy, PartialEq, Eq)]
pub struct Reading {
    // the half cells read, the latest in the least significant place
    pub bits: u32,
    // how many of them are of the byte that is being read and the data bit before it
    pub held: u32,
    // bytes closed
    pub words: u32,
    // the place of the cell of the lowest gap out of place, where there is one
    pub place: u32,
    // a gap was out of place
    pub stray: bool,
}

impl Reading {
    // The transition before the first cell is the lead's clock bit.
    pub fn new() -> Reading
        ensures { result ≡ fresh_reading }
    {
        Reading {
            bits: 1,
            held: 0,
            words: 0,
            place: 0,
            stray: false,
        }
    }

    // One cell more, of so many units: 0s, then the 1 that ends it.
    pub fn shift(mut self, units: u8) -> Reading
        ensures { result ≡ shifted self units }
    {
        let more = units as u32;
        self.bits = self.bits << (more % 32) | 1;
        self.held = self.held.wrapping_add(more);
        self
    }

    // No half cell: after sixteen cells a register is the same whatever it held.
    pub fn empty() -> Reading
        ensures { result ≡ empty_reading }
    {
        Reading {
            bits: 0,
            held: 0,
            words: 0,
            place: 0,
            stray: false,
        }
    }

    // A byte is whole with its 16 half cells and the data bit before it.
    pub fn is_whole(self) -> bool
        ensures { result ≡ is_whole self }
    {
        17 <= self.held
    }

    // The code word of a byte that is whole.
    pub fn word(self) -> u16
        requires { 17 ≤ self.held }
        ensures { result ≡ code_word self }
    {
        let surplus = (self.held - 17) % 32;
        let x = (self.bits >> surplus) % 131072;
        (x % 65536) as u16
    }

    // On to the next byte after the cell at this place made one whole. Of the gaps out of place the lowest is kept.
    pub fn close(mut self, at: u32) -> Reading
        requires { 17 ≤ self.held }
        ensures { result ≡ closed self at }
    {
        let surplus = (self.held - 17) % 32;
        let x = (self.bits >> surplus) % 131072;
        let gaps = half_cells::missing(x);
        self.held -= 16;
        self.words = self.words.wrapping_add(1);
        if gaps == 0 {
            return self;
        }
        if half_cells::is_mark(x) {
            return self;
        }
        if self.stray {
            return self;
        }
        self.stray = true;
        self.place = half_cells::first_of_cells(
            at,
            half_cells::cells_since(self.bits, surplus, gaps),
        );
        self
    }

    // A gap was out of place, also one on the last bit, which no later byte has shown.
    pub fn is_stray(self) -> bool
        ensures { result ≡ stray_now self }
    {
        self.stray | ((self.held == 4) & (self.bits % 16 == 1))
    }

    // The place of the lowest such gap's cell, given that of the last cell.
    pub fn stray_place(self, last: u32) -> u32
        ensures { result ≡ place_now self last }
    {
        if self.stray {
            return self.place;
        }
        last
    }
}
