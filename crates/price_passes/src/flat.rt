// The rows as they are read: four flat lists. That they are rows over so many classes is asked where they are read.

// Row i has the output outputs[i], the head cost heads[i] and the children children[starts[i]..starts[i + 1]].
#[derive(Clone, Copy)]
pub struct Rows<'a> {
    pub outputs: &'a [u64],
    pub heads: &'a [u64],
    pub starts: &'a [usize],
    pub children: &'a [u64],
}
