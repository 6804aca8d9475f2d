// The sections of a file, read one after the other. Each answers what it says, and the rest of the file.
ghost use Rattle.std.specs.Prelude.{◌≡◌, ℕ, ◌+◌, ◌<◌, drop, slice_index_or, IsErrOf, IsOkAnd};
ghost use Rattle.limits.specs.Limits.{most_rows};
ghost use Rattle.tile.specs.Shapes.{cells, MadeOf};
ghost use Rattle.tilefile.specs.declared.fault.Section.TheVariants.{Readings, Ties};
ghost use Rattle.tilefile.specs.Letters.{letter_byte};
ghost use Rattle.tilefile.specs.Bytes.{byte_at, number_at};
ghost use Rattle.tilefile.specs.Files.{CellsChecked};
ghost use Rattle.tilefile.specs.Sections.{WholeChecked, CountChecked, RuleChecked, rows_at, columns_at, top_at, StartChecked, ShapeChecked, class_at, ReadingChecked, reading_place, ReadingsChecked, TieChecked, ties_place, TiesChecked, EndChecked};

use crate::fault::{EntryFlaw, Fault, Flaw, Section};
use crate::letter::Letter;
use crate::reader::Reader;
use passes::{are_ties_sound, is_reading_sound};
use tile::Shape;

impl<'a> Reader<'a> {
    // The next bytes, so many of them, which are a count or an entry of the section.
    fn item<const N: usize>(&mut self, section: Section) -> Result<[u8; N], Fault>
        ensures bytes { self.new.bytes ≡ self.old.bytes }
        ensures checked { WholeChecked self.old.bytes.now section self.old.place N (λ e. IsErrOf result e)
            (IsOkAnd result (λ item. (j : ℕ) → j < N → slice_index_or item j 0 ≡ byte_at self.old.bytes.now (self.old.place + j)) × (self.new.place ≡ self.old.place + N)) }
    {
        let place = self.bytes.len();
        self.take().ok_or(Fault {
            section,
            place,
            flaw: Flaw::Truncated,
        })
    }

    // The count of a section, which has to be this one.
    pub(crate) fn count(&mut self, section: Section, cells: usize) -> Result<(), Fault>
        ensures bytes { self.new.bytes ≡ self.old.bytes }
        ensures checked { CountChecked self.old.bytes.now section self.old.place cells (λ e. result ≡ Err e) ((result ≡ Ok tt) × (self.new.place ≡ self.old.place + 2)) }
    {
        let place = self.place;
        let count = self.item(section)?;
        if usize::from(u16::from_be_bytes(count)) != cells {
            return Err(Fault {
                section,
                place,
                flaw: Flaw::Count,
            });
        }
        Ok(())
    }

    // Rule: the letter.
    pub(crate) fn rule(&mut self) -> Result<(Letter, &'a [u8]), Fault>
        ensures bytes { self.new.bytes ≡ self.old.bytes }
        ensures checked { RuleChecked self.old.bytes.now self.old.place (λ e. IsErrOf result e)
            (IsOkAnd result (λ x. (byte_at self.old.bytes.now (self.old.place + 2) ≡ letter_byte x.0) × (x.1.now ≡ drop (self.old.place + 3) self.old.bytes.now)) × (self.new.place ≡ self.old.place + 3)) }
    {
        self.count(Section::Rule, 1)?;
        let place = self.place;
        let [byte] = self.item::<1>(Section::Rule)?;
        let letter = Letter::try_from(byte).map_err(|flaw| Fault {
            section: Section::Rule,
            place,
            flaw,
        })?;
        Ok((letter, self.rest()))
    }

    // Shape: the shape that is asked for, where start would make it over so many records.
    pub(crate) fn shape(&mut self, records: usize) -> Result<(Shape, &'a [u8]), Fault>
        ensures bytes { self.new.bytes ≡ self.old.bytes }
        ensures checked { ShapeChecked self.old.bytes.now self.old.place records (λ e. IsErrOf result e)
            (IsOkAnd result (λ x. MadeOf most_rows (rows_at self.old.bytes.now self.old.place) (columns_at self.old.bytes.now self.old.place) (top_at self.old.bytes.now self.old.place) x.0
            × (x.1.now ≡ drop (self.old.place + 8) self.old.bytes.now)) × (self.new.place ≡ self.old.place + 8)) }
    {
        self.count(Section::Shape, 3)?;
        let place = self.place;
        let [r1, r0, c1, c0, t1, t0] = self.item::<6>(Section::Shape)?;
        let shape = asked_shape(
            u16::from_be_bytes([r1, r0]),
            u16::from_be_bytes([c1, c0]),
            u16::from_be_bytes([t1, t0]),
            records,
        )
        .map_err(|why| Fault {
            section: Section::Shape,
            place,
            flaw: Flaw::Entry(why),
        })?;
        Ok((shape, self.rest()))
    }

    // One entry of Readings: a reading and its class.
    pub(crate) fn reading_entry(&mut self) -> Result<(u16, u8), Fault>
        ensures bytes { self.new.bytes ≡ self.old.bytes }
        ensures checked { WholeChecked self.old.bytes.now Readings self.old.place 3 (λ e. result ≡ Err e)
            ((result ≡ Ok (number_at self.old.bytes.now self.old.place, class_at self.old.bytes.now self.old.place)) × (self.new.place ≡ self.old.place + 3)) }
    {
        let [high, low, class] = self.item::<3>(Section::Readings)?;
        Ok((u16::from_be_bytes([high, low]), class))
    }

    // The same, and that put would accept it.
    fn reading(&mut self, shape: Shape) -> Result<(), Fault>
        ensures bytes { self.new.bytes ≡ self.old.bytes }
        ensures checked { ReadingChecked shape self.old.bytes.now self.old.place (λ e. result ≡ Err e) ((result ≡ Ok tt) × (self.new.place ≡ self.old.place + 3)) }
    {
        let place = self.place;
        let (reading, class) = self.reading_entry()?;
        if !is_reading_sound(shape.top(), reading, class) {
            return Err(Fault {
                section: Section::Readings,
                place,
                flaw: Flaw::Entry(EntryFlaw::Reading),
            });
        }
        Ok(())
    }

    // Readings: that each is one that put would accept.
    fn readings(&mut self, shape: Shape) -> Result<&'a [u8], Fault>
        ensures bytes { self.new.bytes ≡ self.old.bytes }
        ensures checked { ReadingsChecked shape self.old.bytes.now self.old.place (λ e. IsErrOf result e)
            (IsOkAnd result (λ x. x.now ≡ drop (reading_place self.old.place (cells shape)) self.old.bytes.now) × (self.new.place ≡ reading_place self.old.place (cells shape))) }
    {
        self.count(Section::Readings, shape.cells())?;
        for _cell in 0..shape.cells() {
            self.reading(shape)?;
        }
        Ok(self.rest())
    }

    // One entry of Ties: the right and the down tie of a cell.
    pub(crate) fn ties_entry(&mut self) -> Result<(u16, u16), Fault>
        ensures bytes { self.new.bytes ≡ self.old.bytes }
        ensures checked { WholeChecked self.old.bytes.now Ties self.old.place 4 (λ e. result ≡ Err e)
            ((result ≡ Ok (number_at self.old.bytes.now self.old.place, number_at self.old.bytes.now (self.old.place + 2))) × (self.new.place ≡ self.old.place + 4)) }
    {
        let [r1, r0, d1, d0] = self.item::<4>(Section::Ties)?;
        Ok((u16::from_be_bytes([r1, r0]), u16::from_be_bytes([d1, d0])))
    }

    // The same, and that tie would accept it.
    fn tie(&mut self, shape: Shape, cell: usize) -> Result<(), Fault>
        requires { cell < cells shape }
        ensures bytes { self.new.bytes ≡ self.old.bytes }
        ensures checked { TieChecked shape self.old.bytes.now self.old.place cell (λ e. result ≡ Err e) ((result ≡ Ok tt) × (self.new.place ≡ self.old.place + 4)) }
    {
        let place = self.place;
        let (right, down) = self.ties_entry()?;
        if !are_ties_sound(shape, cell, right, down) {
            return Err(Fault {
                section: Section::Ties,
                place,
                flaw: Flaw::Entry(EntryFlaw::Tie),
            });
        }
        Ok(())
    }

    // Ties: that each is one that tie would accept.
    fn ties(&mut self, shape: Shape) -> Result<&'a [u8], Fault>
        ensures bytes { self.new.bytes ≡ self.old.bytes }
        ensures checked { TiesChecked shape self.old.bytes.now self.old.place (λ e. IsErrOf result e)
            (IsOkAnd result (λ x. x.now ≡ drop (ties_place self.old.place (cells shape)) self.old.bytes.now) × (self.new.place ≡ ties_place self.old.place (cells shape))) }
    {
        self.count(Section::Ties, shape.cells())?;
        for cell in 0..shape.cells() {
            self.tie(shape, cell)?;
        }
        Ok(self.rest())
    }

    // That no byte is left.
    fn end(&self) -> Result<(), Fault>
        ensures { EndChecked self.now.bytes.now self.now.place (λ e. result ≡ Err e) (result ≡ Ok tt) }
    {
        if self.place < self.bytes.len() {
            return Err(Fault {
                section: Section::Ties,
                place: self.place,
                flaw: Flaw::Trailing,
            });
        }
        Ok(())
    }

    // Readings and Ties, up to the end of the file; answers the file from Ties on.
    pub(crate) fn cells(&mut self, shape: Shape) -> Result<&'a [u8], Fault>
        ensures bytes { self.new.bytes ≡ self.old.bytes }
        ensures checked { CellsChecked shape self.old.bytes.now self.old.place (λ e. IsErrOf result e)
            (IsOkAnd result (λ x. x.now ≡ drop (reading_place self.old.place (cells shape)) self.old.bytes.now) × (self.new.place ≡ ties_place (reading_place self.old.place (cells shape)) (cells shape))) }
    {
        let ties = self.readings(shape)?;
        self.ties(shape)?;
        self.end()?;
        Ok(ties)
    }
}

// The shape that start would make over so many records.
fn asked_shape(rows: u16, columns: u16, top: u16, records: usize) -> Result<Shape, EntryFlaw>
    ensures { StartChecked rows columns top records (λ e. result ≡ Err e) (IsOkAnd result (λ s. MadeOf most_rows rows columns top s)) }
{
    let shape = Shape::new(rows.into(), columns.into(), top)?;
    if records < shape.cells() {
        return Err(EntryFlaw::FewRecords);
    }
    Ok(shape)
}
