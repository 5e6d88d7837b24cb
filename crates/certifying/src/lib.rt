//! A certificate found from two designs alone, without the names of the hardened one.
//!
//! The layer above may rely on this: a certificate that `certify` gives fits both designs, and the eight rules
//! hold of it. Its partitions are the finest that the rules admit for its roles, and its labels and depths the
//! least. Where none is given, `no_certificate_line` tells the first place that fits nothing. That one is found
//! wherever one exists is not promised.
//!
//! `role_search` finds roles, of which nothing is known. `bare` makes a certificate with one partition of them that fits
//! both designs, or names what is missing. What is hard comes then: that no accepted certificate with these roles has
//! smaller partitions. It is compared with none. Each sorts the nodes so that what a copy reads without a voter, and all
//! that read one voter, stay together (`KeepsJoins`); `joining` joins in a forest only what each such sorting keeps
//! together. A parent is never above its child (`forest`), so one pass numbers the sets by their least nodes
//! (`numbering`). Labels are the least since each copy is labelled behind those that it reads (`order`, `labels`).
#![tactic(auto)]

mod bare;
mod cause;
mod certified;
mod depths;
mod draft;
mod forest;
mod joining;
mod labels;
mod laws;
mod line;
mod numbering;
mod order;

pub use cause::NoCertificate;
pub use certified::certify;
pub use laws::certify_allows_more;
pub use line::no_certificate_line;
