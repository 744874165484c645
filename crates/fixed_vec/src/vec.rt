// The vector.
ghost use Rattle.std.specs.Prelude.{◌≡◌, ◌<◌, ◌++◌, ◌∷◌, [], IfOk, slice_index_or};
ghost use Rattle.std.specs.List.{remove};
ghost use Rattle.std.specs.Borrow.{sem};

use crate::OutOfMemory;
use std::alloc::Global;
use std::ops::DerefSlice;

/// A vector of a fixed capacity. It takes memory when it is made, and no other call takes any or gives any back: each leaves the
/// elements where they lie (`in_place`). They are read as a slice.
#[derive(Drop)]
pub struct FixedVec<T> {
    elements: Vec<T>,
}

impl<T> FixedVec<T> {
    ghost use Rattle.fixed_vec.specs.FixedVec.{elements_of, length_of, capacity_of};
    ghost use Rattle.fixed_vec.specs.Lends.{lends_element};

    /// An empty vector with the capacity for so many elements.
    pub fn with_capacity(alloc: Global, capacity: usize) -> Result<FixedVec<T>, OutOfMemory>
        ensures empty { IfOk result (λ vec. elements_of vec ≡ []) }
        ensures capacity { IfOk result (λ vec. capacity_of vec ≡ capacity) }
    {
        let elements = Vec::with_capacity(alloc, capacity)?;
        Ok(FixedVec { elements })
    }

    /// How many elements it has.
    #[inline]
    pub fn len(&self) -> usize
        ensures { result ≡ length_of self.now }
    {
        self.elements.len()
    }

    /// The element of an index, to be changed where it lies.
    #[inline]
    pub fn element_mut(&mut self, index: usize) -> &mut T
        requires { index < length_of self.old }
        ensures* writes_back { sem 𝓛 (lends_element T.row self.entry index result) }
        ensures value { result.now ≡ slice_index_or (elements_of self.old) index result.now }
    {
        &mut self.elements[index]
    }
}

impl<T: Drop> FixedVec<T> {
    ghost use Rattle.fixed_vec.specs.FixedVec.{elements_of, length_of, capacity_of, StaysInPlace};

    /// Adds an element behind the others. There must be room for it.
    pub fn push(&mut self, element: T)
        requires { length_of self.old < capacity_of self.old }
        ensures elements { elements_of self.new ≡ elements_of self.old ++ element ∷ [] }
        ensures in_place { StaysInPlace self.old self.new }
    {
        let end = self.elements.len();
        let _ = self.elements.insert(end, element);
    }

    /// Takes the element of an index out. Those behind it move up.
    pub fn remove(&mut self, index: usize) -> T
        requires { index < length_of self.old }
        ensures element { result ≡ slice_index_or (elements_of self.old) index result }
        ensures elements { elements_of self.new ≡ remove (elements_of self.old) index }
        ensures in_place { StaysInPlace self.old self.new }
    {
        self.elements.remove(index)
    }
}

impl<T> DerefSlice for FixedVec<T> {
    ghost use Rattle.fixed_vec.specs.FixedVec.{elements_of};

    type Elem = T;

    ghost deref_gives = { λ vec elements. elements ≡ elements_of vec };

    #[inline]
    fn deref(&self) -> &[T] {
        &self.elements
    }
}
