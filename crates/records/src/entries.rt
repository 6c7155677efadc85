use crate::laid::Laid;
use crate::stretch::Stretch;
use std::marker::PhantomData;

mod methods;

// The entries of a stretch of a table that are still to come.
#[derive(Drop)]
pub struct Entries<'l, 'r, E> {
    tables: &'l Laid<'r>,
    left: Stretch,
    entry: PhantomData<E>,
}
