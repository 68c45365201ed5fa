// What a text is written from. Whoever makes one has shown that it can be written, so no function that takes one asks
// for it. Assumes nothing.
ghost use Rattle.text_write.specs.Piece.{Sheet};

use text_pieces::Spelling;
use text_pieces::nodes::Nodes;

// The terms, the place of each (0 without a let name, else one more than the number of its binding), the inline length
// of each, and how let names are spelled.
#[derive(Clone, Copy)]
pub struct Page<'a> {
    pub nodes: Nodes<'a>,
    pub places: &'a [u64],
    pub wides: &'a [u64],
    pub spelling: Spelling<'a>,
    pub ghost sheet: { Sheet nodes.records.now nodes.literals.now nodes.names.now places.now wides.now
        nodes.n spelling.start },
}
