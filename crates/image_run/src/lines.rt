//! The line of a refused image.
ghost use Rattle.std.specs.Prelude.{◌≡◌, ◌++◌, IfOk, OnOk, string_bytes};
ghost use Rattle.image_run.specs.Lines.{image_fault_text, image_line};

use image_cube::ImageFault;
use std::alloc::{AllocError, Global};
use texts::{List, NoMemory};

/// The name of a fault.
fn fault_name(fault: ImageFault) -> &'static str
    ensures { result.now ≡ image_fault_text fault }
{
    match fault {
        ImageFault::TooLong => "TooLong",
        ImageFault::NotImage => "NotImage",
        ImageFault::NotShape => "NotShape",
        ImageFault::NoMemory => "NoMemory",
    }
}

/// Appends the line of an image that is refused.
#[tactic(auto, unfolding(crate::specs::Lines::image_line))]
fn push_refused(text: &mut String, fault: ImageFault) -> Result<(), AllocError>
    ensures { OnOk result (string_bytes text.new ≡ string_bytes text.old ++ image_line fault) }
{
    let fault = fault_name(fault);
    write!(text, "image: {fault}\n")
}

fn refused_text(alloc: Global, fault: ImageFault) -> Result<String, AllocError>
    ensures { IfOk result (λ text. string_bytes text ≡ image_line fault) }
{
    let mut text = String::new(alloc);
    push_refused(&mut text, fault)?;
    Ok(text)
}

/// The line of an image that is refused.
pub(crate) fn image_refused(alloc: Global, fault: ImageFault) -> Result<List<u8>, NoMemory>
    ensures { IfOk result (λ text. text ≡ image_line fault) }
{
    let text = refused_text(alloc, fault)?;
    Ok(List::from_vec(text.into_bytes()))
}
