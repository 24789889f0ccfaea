//! Templates: sources that are parsed once and expanded any number of times.

pub use byte_template::ByteTemplate;
pub use byte_template_buf::ByteTemplateBuf;
pub use text_template::Template;
pub use text_template_buf::TemplateBuf;

mod byte_string;
mod byte_template;
mod byte_template_buf;
mod text_template;
mod text_template_buf;
