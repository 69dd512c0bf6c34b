//! Frames as bytes.

use std::alloc::AllocError;
use wire_frames::{Frame, put_frame};

/// Adds the frame's bytes.
pub fn put(out: &mut Vec<u8>, frame: &Frame) -> Result<(), AllocError> {
    let mut bytes = [0; 64];
    let count = put_frame(frame, &mut bytes);
    out.extend_from_slice(&bytes[..count.min(64)])
}
