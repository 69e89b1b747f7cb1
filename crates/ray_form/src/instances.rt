ghost use Rattle.std.specs.Prelude.{◌≡◌, ◌==◌, length};
ghost use Rattle.std.specs.List.{list_all};
ghost use Rattle.ray_bytes.specs.Records.{instance_of};
ghost use Rattle.ray_top.specs.Instances.{forces_both};
ghost use Rattle.ray_form.specs.InstanceBytes.{is_placed, is_instance, are_instances};

use bitflags::Flags;
use ray_bytes::{InstanceRecord, InstanceView};
use ray_contents::matrix_within;
use ray_flags::InstanceFlags;

/// The record of 64 bytes.
pub fn record_of(bytes: &[u8]) -> InstanceRecord
    requires { length bytes.now ≡ 64 }
    ensures { result ≡ instance_of bytes.now }
{
    InstanceView::new(bytes, 0).get(0).unwrap()
}

// Whether flags force opaque, and force no opaque.
fn forces_both(flags: InstanceFlags) -> bool
    ensures { result ≡ forces_both flags }
{
    flags.contains(InstanceFlags::FORCE_OPAQUE) && flags.contains(InstanceFlags::FORCE_NO_OPAQUE)
}

// Whether an active instance is one.
#[tactic(auto, unfolding(crate::specs::InstanceBytes::is_placed, ray_top::specs::Instances::matrix_from))]
fn is_placed(handles: u64, from: &InstanceRecord) -> bool
    ensures { result ≡ is_placed handles from.now }
{
    from.reference <= handles
        && matrix_within(from.rows).is_some()
        && from.flags < 16
        && !forces_both(InstanceFlags(from.flags % 16))
}

// Whether 64 bytes are an instance.
#[tactic(auto, unfolding(crate::specs::InstanceBytes::is_instance))]
fn is_instance(handles: u64, bytes: &[u8]) -> bool
    requires { length bytes.now ≡ 64 }
    ensures { result ≡ is_instance handles bytes.now }
{
    let from = record_of(bytes);
    if from.reference != 0 {
        is_placed(handles, &from)
    } else {
        are_zeros(bytes)
    }
}

// Whether all bytes are zeros.
fn are_zeros(bytes: &[u8]) -> bool
    ensures { result ≡ list_all (λ byte. byte == 0) bytes.now }
{
    bytes.iter().all(|byte| *byte == 0)
}

// Whether all elements are instances.
#[tactic(auto, unfolding(crate::specs::InstanceBytes::are_instances))]
pub(crate) fn are_instances(handles: u64, elements: &[u8]) -> bool
    ensures { result ≡ are_instances handles elements.now }
{
    let (parts, _) = elements.as_chunks::<64>();
    parts.iter().all(|part| is_instance(handles, part))
}
