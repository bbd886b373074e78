//! The laws of reading and writing: each function has no effect, and its contract is the law.
pub use openapi_documents::laws::headline;
pub use openapi_tables::laws::{
    callbacks_kept, canonical, codes, distinct_names, faults, first_value, ignored, order,
    order_kept, reads_its_writing, references, settles, well_made, writable, xml_kept,
};
