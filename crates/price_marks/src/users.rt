// Who uses which class, as chains of links: 0 ends a chain, p + 1 is the child at place p.

// `first` begins the chain of each class, `next` goes on from each child, and `owner` is the row of each child.
#[derive(Clone, Copy)]
pub struct Users<'a> {
    pub first: &'a [u16],
    pub next: &'a [u16],
    pub owner: &'a [u16],
}

// The same three while the links are made.
#[derive(Drop)]
pub struct UsersMut<'a> {
    pub first: &'a mut [u16],
    pub next: &'a mut [u16],
    pub owner: &'a mut [u16],
}
