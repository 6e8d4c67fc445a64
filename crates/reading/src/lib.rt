// Reading a file: its parts (crate parsing), then refusals 7, 22, 8, 9 and 10.
#![tactic(auto)]

ghost use Rattle.std.specs.Prelude.{◌≡◌};
ghost use Rattle.reading.specs.Fits.{OutlineFits};
ghost use Rattle.reading.specs.Read.{stages_read, read_of};

use parsing::parse;
use shapes::{Outline, Refusal};

pub mod edges;
pub mod product;

// The refusals 7, 22, 8, 9 and 10 of a file that parses, in this order, or its outline.
#[tactic(auto, unfolding(crate::specs::Read::stages_read))]
fn read_parsed(file: &[u8], outline: Outline) -> Result<Outline, Refusal>
    requires { OutlineFits file.now outline }
    ensures { result ≡ stages_read file.now outline }
{
    product::states(file, outline.vars)?;
    product::picks(file)?;
    intervals::intervals(file)?;
    edges::rules(file, outline)?;
    edges::doubles(file, outline)?;
    Ok(outline)
}

// Reads a file: the refusals 2 to 10, 19 and 22, or where its parts stand.
#[tactic(auto, using(crate::proofs::Laws::Fits::parsed_fits), unfolding(crate::specs::Read::read_of))]
pub fn read(file: &[u8]) -> Result<Outline, Refusal>
    ensures { result ≡ read_of file.now }
{
    read_parsed(file, parse(file)?)
}
