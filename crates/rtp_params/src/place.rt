/// Where a codec or an extension stands: in parameters, or in capabilities.
#[derive(Clone, Copy)]
pub(crate) enum Place {
    InParams,
    InCaps,
}
