// Texts with long rows of letters in them.
use std::alloc::Global;
use std::test::Fail;

// A part of a text: what stands in front of so many letters `a`, what stands after them, and how
// often all of it comes.
pub(crate) type Part = (&'static [u8], usize, &'static [u8], usize);

// Adds a part.
fn push_part(text: &mut Vec<u8>, alloc: Global, part: Part) -> Result<(), Fail> {
    let (front, count, back, times) = part;
    let letters = vec![in alloc; b'a'; count]?;
    for _ in 0..times {
        text.extend_from_slice(front)?;
        text.extend_from_slice(&letters)?;
        text.extend_from_slice(back)?;
    }
    Ok(())
}

// The parts one after another.
pub(crate) fn text_of(alloc: Global, parts: &[Part]) -> Result<Vec<u8>, Fail> {
    let mut text = Vec::new(alloc);
    for part in parts {
        push_part(&mut text, alloc, *part)?;
    }
    Ok(text)
}
