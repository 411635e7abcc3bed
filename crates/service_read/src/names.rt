ghost use Rattle.std.specs.Prelude.{◌≡◌};
ghost use Rattle.grid_model.specs.Names.{same_text};
ghost use Rattle.grid_model.specs.Services.{word_in};
ghost use Rattle.service_read.specs.ReadServices.{service_names};

use grid_model::Text;

/// The micro-services, by their names without `msi`.
#[derive(Clone, Copy)]
pub(crate) enum ServiceName {
    Nop,
    CollCreate,
    RmColl,
    DataObjRename,
    DataObjRepl,
    DataObjChksum,
    DataObjCopy,
    DataObjTrim,
    DataObjUnlink,
    AddAvu,
    RmAvu,
    SetAcl,
}

/// Whether the text has just these bytes.
fn is_word(text: &Text, bytes: &[u8]) -> bool
    ensures { result ≡ same_text bytes.now text.now }
{
    bytes == text.as_slice()
}

/// The micro-service of this name.
pub(crate) fn service_named(name: &Text) -> Option<ServiceName>
    ensures { result ≡ word_in service_names name.now }
{
    if is_word(name, b"nop") {
        return Some(ServiceName::Nop);
    }
    if is_word(name, b"msiCollCreate") {
        return Some(ServiceName::CollCreate);
    }
    if is_word(name, b"msiRmColl") {
        return Some(ServiceName::RmColl);
    }
    if is_word(name, b"msiDataObjRename") {
        return Some(ServiceName::DataObjRename);
    }
    if is_word(name, b"msiDataObjRepl") {
        return Some(ServiceName::DataObjRepl);
    }
    if is_word(name, b"msiDataObjChksum") {
        return Some(ServiceName::DataObjChksum);
    }
    if is_word(name, b"msiDataObjCopy") {
        return Some(ServiceName::DataObjCopy);
    }
    if is_word(name, b"msiDataObjTrim") {
        return Some(ServiceName::DataObjTrim);
    }
    if is_word(name, b"msiDataObjUnlink") {
        return Some(ServiceName::DataObjUnlink);
    }
    if is_word(name, b"msiAddAVU") {
        return Some(ServiceName::AddAvu);
    }
    if is_word(name, b"msiRmAVU") {
        return Some(ServiceName::RmAvu);
    }
    if is_word(name, b"msiSetACL") {
        return Some(ServiceName::SetAcl);
    }
    None
}
