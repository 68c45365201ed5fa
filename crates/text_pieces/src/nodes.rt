// The first terms of a store, as the texts read them. Whoever makes one has shown that they can be read, so no function
// that takes one asks for it. Assumes nothing.
ghost use Rattle.text_pieces.specs.Readable.{Readable};

// The records, literals and names of which the first `n` terms are read.
#[derive(Clone, Copy)]
pub struct Nodes<'a> {
    pub records: &'a [u64],
    pub literals: &'a [i64],
    pub names: &'a [u8],
    pub n: usize,
    pub ghost readable: { Readable records.now literals.now names.now n },
}
