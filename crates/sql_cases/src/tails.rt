//! What stands behind the selects of a query, as text, a line for each part.

use crate::line::Line;
use sql_front::{Key, KeyOf, Method, NumberAt, QueryOption, Setting};
use std::alloc::AllocError;

fn put_key_of(line: &mut Line, key: &KeyOf) -> Result<(), AllocError> {
    match key {
        KeyOf::Column(column) => line.put_column(column),
        KeyOf::Number(number) => line.put_number(number),
    }
}

fn put_key(line: &mut Line, key: &Key) -> Result<(), AllocError> {
    let (key, order) = match key {
        Key::Unsaid(key) => (key, ""),
        Key::Ascending(key) => (key, " asc"),
        Key::Descending(key) => (key, " desc"),
    };
    put_key_of(line, key)?;
    line.put(order)
}

pub(crate) fn put_keys(line: &mut Line, keys: &[Key]) -> Result<(), AllocError> {
    if keys.is_empty() {
        return Ok(());
    }
    line.put("order by ")?;
    for (place, key) in keys.iter().enumerate() {
        line.put_comma(place)?;
        put_key(line, key)?;
    }
    line.put("\n")
}

pub(crate) fn put_limit(line: &mut Line, limit: &Option<NumberAt>) -> Result<(), AllocError> {
    match limit {
        None => Ok(()),
        Some(number) => {
            line.put("limit ")?;
            line.put_number(number)?;
            line.put("\n")
        }
    }
}

fn setting_word(setting: Setting) -> &'static str {
    match setting {
        Setting::Block => "block",
        Setting::Parts => "parts",
        Setting::Sort => "sort",
    }
}

fn method_word(method: Method) -> &'static str {
    match method {
        Method::Block => "block",
        Method::Index => "index",
        Method::Merge => "merge",
        Method::Hash => "hash",
    }
}

fn put_option(line: &mut Line, option: &QueryOption) -> Result<(), AllocError> {
    match option {
        QueryOption::Set(setting, at, number) => {
            line.put_at(setting_word(*setting), *at)?;
            line.put(" ")?;
            line.put_number(number)
        }
        QueryOption::Use(at, method, place) => {
            line.put_at("use", *at)?;
            line.put(" ")?;
            line.put_at(method_word(*method), *place)
        }
    }
}

pub(crate) fn put_options(line: &mut Line, options: &[QueryOption]) -> Result<(), AllocError> {
    if options.is_empty() {
        return Ok(());
    }
    line.put("option ")?;
    for (place, option) in options.iter().enumerate() {
        line.put_comma(place)?;
        put_option(line, option)?;
    }
    line.put("\n")
}
