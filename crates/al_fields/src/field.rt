/// A member of an object: its name, and what says its value or that there is none.
#[derive(Clone, Copy)]
pub struct Field<P> {
    pub name: &'static str,
    pub piece: P,
}
