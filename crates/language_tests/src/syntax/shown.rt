//! Prints trees, so that a test can say what a text is read as.
//!
//! A part with parts of its own stands in parentheses, behind a word for what it is. A name is printed as the
//! token of its mark is spelled, an operator by its name in the tree, and `_` stands for what is left out.

use os_ast::{
    Call, Change, Clause, ClauseItem, ClauseKind, Constant, Declarator, Expr, Function, Head,
    Index, Item, Mark, Name, Params, Program, Start, Stmt, Target, Ty,
};
use os_lexer::Token;
use std::alloc::Global;
use std::fmt::{Debug, Write};
use std::test::Fail;

/// What a tree was read from.
#[derive(Clone, Copy)]
pub(super) struct Source<'a> {
    pub(super) text: &'a [u8],
    pub(super) tokens: &'a [Token],
}

impl<'a> Source<'a> {
    /// How the token of a mark is spelled; `None` where there is no such token, it is on another line, or it isn't text.
    fn word(&self, mark: Mark) -> Option<&'a str> {
        let token = self.tokens.get(mark.place as usize)?;
        if token.line != mark.line {
            return None;
        }
        let word = self.text.get(token.start as usize..token.end as usize)?;
        str::from_utf8(word).ok()
    }
}

/// What was printed. Where something could not be, it is to be thrown away.
#[derive(Drop)]
struct Shown<'a> {
    source: Source<'a>,
    text: String,
    failed: bool,
}

impl<'a> Shown<'a> {
    fn put(&mut self, word: &str) {
        if self.text.push_str(word).is_err() {
            self.failed = true;
        }
    }

    /// Prints an operator by its name in the tree, or a number.
    fn put_debug<D: Debug>(&mut self, value: &D) {
        if write!(self.text, "{value:?}").is_err() {
            self.failed = true;
        }
    }

    fn put_mark(&mut self, mark: Mark) {
        match self.source.word(mark) {
            Some(word) => self.put(word),
            None => self.failed = true,
        }
    }

    fn put_names(&mut self, names: &[Name]) {
        for name in names {
            self.put(" ");
            self.put_mark(name.mark);
        }
    }

    #[cycle(exprs)]
    fn put_expr(&mut self, expr: &Expr) {
        match expr {
            Expr::Number(number) => self.put_debug(number),
            Expr::Wide(number) => {
                self.put_debug(number);
                self.put("u");
            }
            Expr::Place(target) => self.put_target(target),
            Expr::Call(call) => self.put_call(call),
            Expr::Paren(inner) => {
                self.put("(paren ");
                self.put_expr(inner);
                self.put(")");
            }
            Expr::Unary(op, _, right) => {
                self.put("(");
                self.put_debug(op);
                self.put(" ");
                self.put_expr(right);
                self.put(")");
            }
            Expr::Chain(level, first, links) => {
                self.put("(");
                self.put_debug(level);
                self.put(" ");
                self.put_expr(first);
                for link in links.as_slice() {
                    self.put(" ");
                    self.put_debug(&link.op);
                    self.put(" ");
                    self.put_expr(&link.right);
                }
                self.put(")");
            }
            Expr::Choice(condition, first, second) => {
                self.put("(choice ");
                self.put_expr(condition);
                self.put(" ");
                self.put_expr(first);
                self.put(" ");
                self.put_expr(second);
                self.put(")");
            }
        }
    }

    #[cycle(exprs)]
    fn put_target(&mut self, target: &Target) {
        let Some(index) = &target.index else {
            self.put_mark(target.name.mark);
            return;
        };
        self.put("(at ");
        self.put_mark(target.name.mark);
        self.put(" ");
        self.put_expr(&index.value);
        self.put(")");
    }

    #[cycle(exprs)]
    fn put_call(&mut self, call: &Call) {
        self.put("(call ");
        self.put_mark(call.name.mark);
        for arg in call.args.as_slice() {
            self.put(" ");
            self.put_expr(arg);
        }
        self.put(")");
    }

    /// ` [value]`, or nothing.
    fn put_size(&mut self, size: &Option<Index>) {
        if let Some(size) = size {
            self.put(" [");
            self.put_expr(&size.value);
            self.put("]");
        }
    }

    fn put_declarator(&mut self, declarator: &Declarator) {
        self.put_mark(declarator.name.mark);
        self.put_size(&declarator.size);
        if declarator.stream {
            self.put(" stream");
        }
        if let Some(first) = &declarator.first {
            self.put(" = ");
            self.put_expr(first);
        }
    }

    /// The words of a type but `int`, behind a space.
    fn put_type(&mut self, ty: Ty) {
        match ty {
            Ty::Int => {}
            Ty::Unsigned => self.put(" unsigned"),
            Ty::UnsignedInt => self.put(" unsigned int"),
        }
    }

    fn put_declare(&mut self, ty: Ty, declarators: &[Declarator]) {
        self.put("(declare");
        self.put_type(ty);
        for declarator in declarators {
            self.put(" ");
            self.put_declarator(declarator);
            self.put(",");
        }
        self.put(")");
    }

    fn put_change(&mut self, change: &Change) {
        match change {
            Change::Set(target, assign, _, value) => {
                self.put("(set ");
                self.put_target(target);
                self.put(" ");
                self.put_debug(assign);
                self.put(" ");
                self.put_expr(value);
            }
            Change::After(target, step, _) => {
                self.put("(after ");
                self.put_target(target);
                self.put(" ");
                self.put_debug(step);
            }
            Change::Before(target, step, _) => {
                self.put("(before ");
                self.put_debug(step);
                self.put(" ");
                self.put_target(target);
            }
        }
        self.put(")");
    }

    fn put_start(&mut self, start: &Start) {
        match start {
            Start::Empty => self.put("_"),
            Start::Declare(ty, declarators) => self.put_declare(*ty, declarators.as_slice()),
            Start::Change(change) => self.put_change(change),
        }
    }

    fn put_head(&mut self, head: &Head) {
        self.put_start(&head.start);
        self.put(" ");
        match &head.test {
            None => self.put("_"),
            Some(test) => self.put_expr(test),
        }
        self.put(" ");
        match &head.step {
            None => self.put("_"),
            Some(step) => self.put_change(step),
        }
    }

    fn put_clause_items(&mut self, items: &[ClauseItem]) {
        for item in items {
            self.put(" ");
            self.put_target(&item.stream);
            if let Some(join) = &item.window {
                self.put(" ");
                self.put_mark(join.mark);
                self.put(" ");
                self.put_mark(join.name.mark);
                self.put_size(&join.burst);
            }
            self.put(",");
        }
    }

    fn put_clause(&mut self, clause: &Clause) {
        if clause.comma {
            self.put(", ");
        }
        match &clause.kind {
            ClauseKind::Input(items) => {
                self.put("(input");
                self.put_clause_items(items.as_slice());
            }
            ClauseKind::Output(items) => {
                self.put("(output");
                self.put_clause_items(items.as_slice());
            }
            ClauseKind::Firstprivate(names) => {
                self.put("(firstprivate");
                self.put_names(names.as_slice());
            }
        }
        self.put(") ");
    }

    #[cycle(stmts)]
    fn put_stmt(&mut self, stmt: &Stmt) {
        match stmt {
            Stmt::Empty => self.put(";"),
            Stmt::Block(stmts) => {
                self.put("(block");
                for stmt in stmts.as_slice() {
                    self.put(" ");
                    self.put_stmt(stmt);
                }
                self.put(")");
            }
            Stmt::Declare(ty, declarators) => self.put_declare(*ty, declarators.as_slice()),
            Stmt::Change(change) => self.put_change(change),
            Stmt::Call(call) => self.put_call(call),
            Stmt::If(condition, first, second) => {
                self.put("(if ");
                self.put_expr(condition);
                self.put(" ");
                self.put_stmt(first);
                if let Some(second) = second {
                    self.put(" else ");
                    self.put_stmt(second);
                }
                self.put(")");
            }
            Stmt::While(condition, body) => {
                self.put("(while ");
                self.put_expr(condition);
                self.put(" ");
                self.put_stmt(body);
                self.put(")");
            }
            Stmt::For(head, body) => {
                self.put("(for ");
                self.put_head(head);
                self.put(" ");
                self.put_stmt(body);
                self.put(")");
            }
            Stmt::Break(mark) | Stmt::Continue(mark) => self.put_mark(*mark),
            Stmt::Return(_, value) => {
                self.put("(return ");
                self.put_expr(value);
                self.put(")");
            }
            Stmt::Task(site) => {
                self.put("(task ");
                for clause in site.clauses.as_slice() {
                    self.put_clause(clause);
                }
                self.put_stmt(&site.body);
                self.put(")");
            }
            Stmt::Tick(site) => {
                self.put("(tick ");
                self.put_target(&site.stream);
                self.put(" ");
                self.put_mark(site.arrow);
                self.put(" ");
                self.put_expr(&site.amount);
                self.put(")");
            }
            Stmt::Taskwait(_) => self.put("(taskwait)"),
        }
    }

    fn put_constant(&mut self, constant: &Constant) {
        self.put("(constant");
        self.put_type(constant.ty);
        self.put(" ");
        self.put_mark(constant.name.mark);
        if constant.minus {
            self.put(" -");
        }
        self.put(" ");
        self.put_debug(&constant.size);
        if constant.wide {
            self.put("u");
        }
        self.put(")");
    }

    fn put_function(&mut self, function: &Function) {
        self.put("(function");
        self.put_type(function.ty);
        self.put(" ");
        self.put_mark(function.name.mark);
        match &function.params {
            Params::Empty => self.put(" _"),
            Params::Void => self.put(" void"),
            Params::Names(params) => {
                self.put(" (params");
                for param in params.as_slice() {
                    self.put_type(param.ty);
                    self.put(" ");
                    self.put_mark(param.name.mark);
                }
                self.put(")");
            }
        }
        for stmt in function.body.as_slice() {
            self.put(" ");
            self.put_stmt(stmt);
        }
        self.put(")");
    }

    fn put_program(&mut self, program: &Program) {
        for item in program.items.as_slice() {
            match item {
                Item::Constant(constant) => self.put_constant(constant),
                Item::Function(function) => self.put_function(function),
            }
        }
    }
}

/// A program, printed.
pub(super) fn show(alloc: Global, source: Source<'_>, program: &Program) -> Result<String, Fail> {
    let mut shown = Shown {
        source,
        text: String::new(alloc),
        failed: false,
    };
    shown.put_program(program);
    if shown.failed {
        return Err(Fail::from("a tree that can't be printed"));
    }
    Ok(shown.text)
}
