// What texts are written from.
use jobindex::Design;
use scope::ScopePath;
use spans::span::Memory;

// The job with its modules, the memory of the stored strings, the scope's path, and the top.
#[derive(Clone, Copy)]
pub struct Source<'a> {
    pub design: Design<'a>,
    pub mem: Memory<'a>,
    pub scope: ScopePath<'a>,
    pub top: &'a [u8],
}
