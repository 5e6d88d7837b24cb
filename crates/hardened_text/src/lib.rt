//! The texts of a hardened design and its certificate, written from what they are made of.
//!
//! The layers above may rely on this: `harden_form` answers what both texts of one pair in the hardened form are made of, and
//! what is told of that pair; `DesignText` and `CertificateText` give its two texts in pieces, so that neither is ever held
//! whole. The pair itself is never made: its nodes, which are many, need no names and no numbers of their own.
#![tactic(auto)]

mod certificate_lines;
mod certificate_text;
mod copies;
mod design;
mod design_text;
mod form;
mod names;
mod voters;

pub use certificate_text::CertificateText;
pub use design_text::DesignText;
pub use form::{HardenedForm, harden_form};
