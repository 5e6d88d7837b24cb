//! The flat design of a library.
ghost use Rattle.std.specs.Prelude.{◌≡◌, ◌≢◌, ◌≤◌, ◌+◌, ◌*◌, ◌⊎◌, ℕ, Bool, List, map, All, count_by, IfOk, OnOk, IfErr, IsErrAnd, MatchResult};
ghost use Rattle.limits.specs.Most.{widest_text};
ghost use Rattle.blif_text.specs.Library.{IsLibrary, FitsPins, Differ};
ghost use Rattle.blif_text.specs.Models.{PlainModel};
ghost use Rattle.blif_text.specs.Views.{plain_model};
ghost use Rattle.library_faults.specs.FlatText.{text_length};
ghost use Rattle.hierarchy.specs.Flatten.{IsFlatFault, IsSameFault, IsFlat, IsFreeFlat};
ghost use Rattle.hierarchy.specs.Private.Stages.{IsFlatModel};
ghost use Rattle.hierarchy.specs.Sizes.{row_total};
ghost use Rattle.hierarchy.specs.declared.flat_fault.FlatFault.{FlatFault};
ghost use Rattle.hierarchy.specs.declared.flat_fault.FlatFault.TheVariants.{Memory};
ghost use Rattle.hierarchy.specs.Drafted.{draft_of as draft_of_model};
ghost use Rattle.flat_net.specs.Net.{Net, net_count, pin_total};
ghost use Rattle.flat_net.specs.Faults.{net_of_draft, IsFaultless, IsFaultOf};

use crate::design::copies::copy_models;
use crate::design::countable::is_countable;
use crate::design::drafted::{into_draft, open_marks};
use crate::design::flat_model::taken_model;
use crate::flat_fault::FlatFault;
use blif_text::{BlifModel, Library};
use flat_net::{FlatNet, FreeNet, NetFault, build};
use std::alloc::Global;

/// A flat design, and how many of its registers have an initial value that is left open and is read as 0.
#[derive(Drop)]
pub struct Flat {
    pub net: FlatNet,
    pub assumed: u32,
}

/// The design of a flat model, whose names and covers are moved into it. One of more nets or pins than 32 bits count
/// is answered by want of memory.
#[tactic(auto, using(crate::proofs::FlatKeeps::draft_laws))]
fn built(alloc: Global, flat: BlifModel) -> Result<FlatNet, NetFault>
    requires pins { All FitsPins (plain_model flat).elements }
    requires inputs { Differ (plain_model flat).inputs }
    requires outputs { Differ (plain_model flat).outputs }
    ensures ok { IfOk result (λ net. net.net ≡ net_of_draft (draft_of_model (plain_model flat))) }
    ensures faultless { OnOk result (IsFaultless (draft_of_model (plain_model flat))) }
    ensures fault { IfErr result (λ fault. IsFaultOf (draft_of_model (plain_model flat)) fault) }
{
    if !is_countable(&flat) {
        return Err(NetFault::Memory);
    }
    match into_draft(alloc, flat) {
        Ok(draft) => build(alloc, draft),
        Err(_) => Err(NetFault::Memory),
    }
}

/// The design of a flat model, which is no larger than the model's text.
#[tactic(auto, using(crate::proofs::Sizing::sizes))]
fn design_of(alloc: Global, flat: BlifModel) -> Result<FlatNet, NetFault>
    requires pins { All FitsPins (plain_model flat).elements }
    requires inputs { Differ (plain_model flat).inputs }
    requires outputs { Differ (plain_model flat).outputs }
    ensures ok { IfOk result (λ net. net.net ≡ net_of_draft (draft_of_model (plain_model flat))) }
    ensures faultless { OnOk result (IsFaultless (draft_of_model (plain_model flat))) }
    ensures fault { IfErr result (λ fault. IsFaultOf (draft_of_model (plain_model flat)) fault) }
    ensures nets { IfOk result (λ net. 2 * (net_count net.net + pin_total net.net) ≤ text_length (plain_model flat)) }
    ensures rows { IfOk result (λ net. row_total net.net ≤ text_length (plain_model flat)) }
{
    let net = built(alloc, flat)?;
    // What an accessor says of each design is needed here: no name is empty.
    let _inputs = net.input_count();
    Ok(net)
}

/// The design of a flat model, with a mark at each open initial value, for each library of which it is the flat
/// model.
#[tactic(auto, using(crate::proofs::FlatModels::flat_designs))]
fn flat_design(alloc: Global, flat: BlifModel, limit: u64) -> Result<FreeNet, FlatFault>
    requires pins { All FitsPins (plain_model flat).elements }
    requires inputs { Differ (plain_model flat).inputs }
    requires outputs { Differ (plain_model flat).outputs }
    requires short { text_length (plain_model flat) ≤ limit }
    ensures ok { (library : List PlainModel) → IsFlatModel library limit (plain_model flat)
        → IfOk result (λ made. IsFreeFlat library limit made.design.net made.free) }
    ensures fault { (library : List PlainModel) → IsFlatModel library limit (plain_model flat)
        → IfErr result (λ fault. IsFlatFault library limit fault) }
    ensures nets { IfOk result (λ made. 2 * (net_count made.design.net + pin_total made.design.net) ≤ limit) }
    ensures rows { IfOk result (λ made. row_total made.design.net ≤ limit) }
{
    let marks = open_marks(alloc, &flat)?;
    match design_of(alloc, flat) {
        Ok(net) => Ok(FreeNet::make(net, marks)),
        Err(NetFault::Memory) => Err(FlatFault::Memory),
        Err(fault) => Err(FlatFault::Net(fault)),
    }
}

/// The flat design of a library, or its first fault. The library is taken apart.
#[tactic(auto, using(crate::proofs::FlatModels::flat_kept))]
fn taken_flat(alloc: Global, models: Vec<BlifModel>, limit: u64) -> Result<FreeNet, FlatFault>
    requires library { IsLibrary (map plain_model models.items) }
    requires limit { limit ≤ widest_text }
    ensures ok { IfOk result (λ flat. IsFreeFlat (map plain_model models.items) limit flat.design.net flat.free) }
    ensures fault { IfErr result (λ fault. IsFlatFault (map plain_model models.items) limit fault) }
    ensures nets { IfOk result (λ flat. 2 * (net_count flat.design.net + pin_total flat.design.net) ≤ limit) }
    ensures rows { IfOk result (λ flat. row_total flat.design.net ≤ limit) }
{
    let flat = taken_model(alloc, models, limit)?;
    flat_design(alloc, flat, limit)
}

/// The same design, or the same fault. It is the only answer: this is the one way, and each public call goes it.
fn flattened(alloc: Global, models: Vec<BlifModel>, limit: u64) -> Result<FreeNet, FlatFault>
    requires library { IsLibrary (map plain_model models.items) }
    requires limit { limit ≤ widest_text }
    ensures ok { IfOk result (λ flat. IsFreeFlat (map plain_model models.items) limit flat.design.net flat.free) }
    ensures ok_only { (n : Net) (free : List Bool) → IsFreeFlat (map plain_model models.items) limit n free
        → MatchResult result (λ flat. (flat.design.net ≡ n) × (flat.free ≡ free)) (λ fault. fault ≡ Memory) }
    ensures fault { IfErr result (λ fault. IsFlatFault (map plain_model models.items) limit fault) }
    ensures fault_only { (fault : FlatFault) → fault ≢ Memory → IsFlatFault (map plain_model models.items) limit fault
        → IsErrAnd result (λ answered. (answered ≡ Memory) ⊎ IsSameFault answered fault) }
    ensures nets { IfOk result (λ flat. 2 * (net_count flat.design.net + pin_total flat.design.net) ≤ limit) }
    ensures rows { IfOk result (λ flat. row_total flat.design.net ≤ limit) }
{
    taken_flat(alloc, models, limit)
}

/// The models of a library that is not used again, in no more room than they take.
fn models_of(lib: Library) -> Vec<BlifModel>
    ensures models { map plain_model result.items ≡ lib }
    ensures kept { IsLibrary lib }
{
    let mut models = lib.into_models();
    models.shrink_to_fit();
    models
}

/// The flat design of the library, where its flat text has at most `limit` bytes, with a mark at each
/// register whose initial value is left open.
///
/// Where the library has a flat design, that design is the answer. Where it has a fault, the first one is,
/// of which a loop may be told by any list that is one. It never has both. `Memory` may come in place of
/// either, and comes where the nets of the flat text, or its pins, are more than 32 bits count. Nets and pins of a
/// design are together at most half of `limit`, and the rows of all covers, each of the cover's width plus 1, at
/// most `limit`. The library is not changed: its models are copied first.
pub fn flatten_free(alloc: Global, lib: &Library, limit: u64) -> Result<FreeNet, FlatFault>
    requires { limit ≤ widest_text }
    ensures ok { IfOk result (λ flat. IsFreeFlat lib.now limit flat.design.net flat.free) }
    ensures ok_only { (n : Net) (free : List Bool) → IsFreeFlat lib.now limit n free
        → MatchResult result (λ flat. (flat.design.net ≡ n) × (flat.free ≡ free)) (λ fault. fault ≡ Memory) }
    ensures fault { IfErr result (λ fault. IsFlatFault lib.now limit fault) }
    ensures fault_only { (fault : FlatFault) → fault ≢ Memory → IsFlatFault lib.now limit fault
        → IsErrAnd result (λ answered. (answered ≡ Memory) ⊎ IsSameFault answered fault) }
    ensures nets { IfOk result (λ flat. 2 * (net_count flat.design.net + pin_total flat.design.net) ≤ limit) }
    ensures rows { IfOk result (λ flat. row_total flat.design.net ≤ limit) }
{
    flattened(alloc, copy_models(alloc, lib.models())?, limit)
}

/// The same design, or the same fault, of a library that is not used again: a main model that places no models is
/// moved into the design, and nothing of it is copied. Of what the library holds nothing is left when the design
/// is made.
pub fn flatten_owned(alloc: Global, lib: Library, limit: u64) -> Result<FreeNet, FlatFault>
    requires { limit ≤ widest_text }
    ensures ok { IfOk result (λ flat. IsFreeFlat lib limit flat.design.net flat.free) }
    ensures ok_only { (n : Net) (free : List Bool) → IsFreeFlat lib limit n free
        → MatchResult result (λ flat. (flat.design.net ≡ n) × (flat.free ≡ free)) (λ fault. fault ≡ Memory) }
    ensures fault { IfErr result (λ fault. IsFlatFault lib limit fault) }
    ensures fault_only { (fault : FlatFault) → fault ≢ Memory → IsFlatFault lib limit fault
        → IsErrAnd result (λ answered. (answered ≡ Memory) ⊎ IsSameFault answered fault) }
    ensures nets { IfOk result (λ flat. 2 * (net_count flat.design.net + pin_total flat.design.net) ≤ limit) }
    ensures rows { IfOk result (λ flat. row_total flat.design.net ≤ limit) }
{
    flattened(alloc, models_of(lib), limit)
}

/// The design alone, and how many marks it has.
fn unmarked(flat: FreeNet) -> Flat
    ensures net { result.net ≡ flat.design }
    ensures assumed { result.assumed ≡ count_by (λ bit. bit) flat.free }
{
    let assumed = flat.free_count();
    Flat {
        net: flat.into_net(),
        assumed,
    }
}

/// The same design, and the number of its registers whose initial value is left open. It is read as 0.
pub fn flatten(alloc: Global, lib: &Library, limit: u64) -> Result<Flat, FlatFault>
    requires { limit ≤ widest_text }
    ensures ok { IfOk result (λ flat. IsFlat lib.now limit flat.net.net flat.assumed) }
    ensures ok_only { (n : Net) (open_values : ℕ) → IsFlat lib.now limit n open_values
        → MatchResult result (λ flat. (flat.net.net ≡ n) × (flat.assumed ≡ open_values)) (λ fault. fault ≡ Memory) }
    ensures fault { IfErr result (λ fault. IsFlatFault lib.now limit fault) }
    ensures fault_only { (fault : FlatFault) → fault ≢ Memory → IsFlatFault lib.now limit fault
        → IsErrAnd result (λ answered. (answered ≡ Memory) ⊎ IsSameFault answered fault) }
    ensures nets { IfOk result (λ flat. 2 * (net_count flat.net.net + pin_total flat.net.net) ≤ limit) }
    ensures rows { IfOk result (λ flat. row_total flat.net.net ≤ limit) }
{
    match flatten_free(alloc, lib, limit) {
        Ok(flat) => Ok(unmarked(flat)),
        Err(fault) => Err(fault),
    }
}
