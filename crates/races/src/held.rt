//! What is held, as far as races ask for it.
use crate::nearest::NearestPosts;
use columns::column::Column;
use recording::row::Row;

/// The held rows, with what is before each and its nearest posts.
#[derive(Clone, Copy)]
pub struct Held<'a> {
    pub rows: &'a [Row],
    /// By position: what is before it.
    pub columns: &'a [Column],
    /// By position: the nearest posts of its chain.
    pub nearests: &'a [NearestPosts],
}
